// Messages that are over: a mailbox that nobody will read.
ghost use Rattle.std.specs.Prelude.{◌≡◌};
ghost use Rattle.group.specs.Roster.{over_all};

use actor::message::MessageRow;
use lists::LinkRow;
use steps::step;

// The first n messages of a list are over.
#[tactic(auto, using(crate::proofs::Loops::over))]
pub fn over_all(links: &mut [LinkRow], rows: &[MessageRow], from: usize, n: u64)
    ensures { links.new ≡ over_all links.old rows.now from n }
{
    for _ in 0..n {
        step::over_first(links, rows, from);
    }
}
