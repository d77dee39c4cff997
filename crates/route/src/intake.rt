// Inbox to pending while pending and queued are below the backlog, one message a step; then all of pending is the
// batch.
ghost use Rattle.std.specs.Prelude.{◌≡◌};
ghost use Rattle.points.specs.Words.{at_of};
ghost use Rattle.route.specs.Intake.{batch_of, intake_of};

use lists::LinkRow;
use points::words;
use points::words::Where;

// All of pending is to be routed, at most all entries.
#[tactic(auto, unfolding(crate::specs::Intake::batch_of))]
fn batch(links: &mut [LinkRow]) -> Where
    ensures { record { links = links.new; at = at_of result } ≡ batch_of links.old }
{
    lists::move_all(links, lists::PENDING, lists::BATCH);
    words::route(lists::length_of(links, lists::BATCH).min(lists::MESSAGES))
}

// One message more of the inbox is taken in, or the batch begins.
#[tactic(auto, unfolding(crate::specs::Intake::intake_of))]
pub fn intake(links: &mut [LinkRow], queued: u64, backlog: u64, left: u64) -> Where
    ensures { record { links = links.new; at = at_of result }
        ≡ intake_of links.old queued backlog left }
{
    if left == 0
        || backlog <= lists::length_of(links, lists::PENDING).saturating_add(queued)
        || lists::length_of(links, lists::INBOX) == 0
    {
        return batch(links);
    }
    lists::move_first(links, lists::INBOX, lists::PENDING);
    words::intake(left - 1)
}
