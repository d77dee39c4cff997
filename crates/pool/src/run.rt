// A turn runs on, and what the call that ran it answers: the question or order that is open, or how the turn ended.
ghost use Rattle.std.specs.Prelude.{◌≡◌};
ghost use Rattle.turn.specs.Words.{pool_of};
ghost use Rattle.turn.specs.Rail.{state_in, RailKept};
ghost use Rattle.pool.specs.Run.{waiters_from, busy_of, answered_of, did_in, run_of};

use answers::answer::{Accepted, Called};
use answers::refusals;
use group::roster;
use lists::keys::KeyRow;
use lists::{LinkRow, keys};
use turn::state::{PoolCells, Rail};
use turn::{state, step};

// Whether some waiting list is not empty.
fn waiters(keys: &[KeyRow], groups: usize) -> bool
    ensures { result ≡ waiters_from keys.now groups }
{
    for g in 0..groups {
        if 0 < keys::count_at(keys, roster::waiting_row(g)) {
            return true;
        }
    }
    false
}

// Whether an actor was stepped, or pending is not empty.
#[tactic(auto, unfolding(crate::specs::Run::busy_of))]
fn busy(pool: &PoolCells, links: &[LinkRow]) -> bool
    ensures { result ≡ busy_of (pool_of pool.now).turn.counts links.now }
{
    state::stepped(pool) || 0 < lists::length_of(links, lists::PENDING)
}

// The turn ended where it is at rest; else a question or an order is open.
fn answered(t: &Rail) -> Called
    ensures { did_in t.now result ≡ answered_of (state_in t.now) }
{
    if refusals::in_turn(state::where_in(t.pool)) {
        return Ok(Accepted::Open);
    }
    Ok(Accepted::Ended {
        busy: busy(t.pool, t.links),
        waiters: waiters(t.keys, state::groups(t.pool)),
    })
}

// Runs until a question, an order or the end.
#[tactic(auto, unfolding(crate::specs::Run::run_of))]
pub(crate) fn run(t: &mut Rail) -> Called
    ensures kept { RailKept t.old t.new }
    ensures ran { did_in t.new result ≡ run_of (state_in t.old) }
{
    step::advance(t);
    answered(t)
}
