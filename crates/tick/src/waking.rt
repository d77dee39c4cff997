// `wake` of the Rust: waiting actors past their deadline, and those whose host calls answered, go to the ready list.
ghost use Rattle.std.specs.Prelude.{◌≡◌};
ghost use Rattle.lists.specs.KeyLists.{keys_at, count_of};
ghost use Rattle.points.specs.Words.{at_of};
ghost use Rattle.actor.specs.Actors.{actor_at};
ghost use Rattle.tick.specs.Waking.{at_most64, wake_of, late_at, polls_of, woken_to, wake_one, wake_next, poll_reply};
ghost use Rattle.group.specs.Roster.{keyed};
ghost use Rattle.points.specs.At.{who_of};

use actor::question::Reply;
use actor::state::{ActorRow, Mode};
use actor::{question, state};
use group::roster;
use lists::keys;
use lists::keys::KeyRow;
use points::words;
use points::words::Where;

// How many keys a list has; it holds at most 64, so that the bound changes no count of one.
fn held(keys: &[KeyRow], row: usize) -> u64
    ensures { result ≡ at_most64 (count_of (keys_at keys.now row)) }
{
    keys::count_at(keys, row).min(keys::FULL) as u64
}

// A group's waiting list is gone through from its front, and grows anew; past the last group the turn is over.
// Kept: the count of groups goes without their table, of which nothing is read.
#[tactic(auto, unfolding(crate::specs::Waking::wake_of))]
pub fn wake(keys: &mut [KeyRow], count: usize, g: usize, clock: u64) -> Where
    ensures { record { keys = keys.new; at = at_of result } ≡ wake_of keys.old count g clock }
{
    if count <= g || lists::GROUPS <= g {
        return words::rest();
    }
    let row = roster::waiting_row(g);
    let left = held(keys, row);
    keys::move_at(keys, row, roster::REST);
    words::wake_next(g, clock, left)
}

// Whether its deadline has passed.
#[tactic(auto, unfolding(crate::specs::Waking::late_at))]
fn late(at: Option<u64>, clock: u64) -> bool
    ensures { result ≡ late_at at clock }
{
    at.is_some_and(|ns| ns <= clock)
}

// Whether Poll is asked: it is blocked and, if eval, has a run.
// Kept: the match tells two modes apart, and only one of them looks at the run.
#[tactic(auto, unfolding(crate::specs::Waking::polls_of))]
fn polls(actors: &[ActorRow], slot: usize) -> bool
    ensures { result ≡ polls_of (actor_at actors.now slot) }
{
    state::is_blocked(actors, slot)
        && match state::mode_at(actors, slot) {
            Mode::Fixed => true,
            Mode::Eval => state::has_run(actors, slot),
        }
}

// Awake, it is queued to run; else it waits on, unless it is idle.
#[tactic(auto, unfolding(crate::specs::Waking::woken_to))]
fn woken_to(keys: &mut [KeyRow], actors: &mut [ActorRow], g: usize, key: u8, awake: bool)
    ensures { record { keys = keys.new; actors = actors.new }
        ≡ woken_to keys.old actors.old g key awake }
{
    let slot = roster::slot_at(g, key);
    if awake {
        state::woken_at(actors, slot);
        roster::schedule(keys, actors, g, key);
    } else if !state::is_idle(actors, slot) {
        roster::push_key(keys, roster::waiting_row(g), key);
    }
}

// A waiting actor: past its deadline it is awake, else it may be polled.
#[tactic(auto, unfolding(crate::specs::Waking::wake_one))]
fn wake_one(
    keys: &mut [KeyRow],
    actors: &mut [ActorRow],
    g: usize,
    key: u8,
    clock: u64,
    left: u64,
) -> Where
    ensures { record { keys = keys.new; actors = actors.new; at = at_of result }
        ≡ wake_one (keyed keys.old actors.old) g key clock left }
{
    if roster::live(keys, g, key) {
        let slot = roster::slot_at(g, key);
        let over = late(state::wakes_at(actors, slot), clock);
        if !over && polls(actors, slot) {
            return words::wake_poll(g, key, clock, left);
        }
        woken_to(keys, actors, g, key, over);
    }
    words::wake_next(g, clock, left)
}

// The next of the waiting list; with none left the ready list is popped as often as it has keys now.
#[tactic(auto, unfolding(crate::specs::Waking::wake_next))]
pub fn wake_next(
    keys: &mut [KeyRow],
    actors: &mut [ActorRow],
    g: usize,
    clock: u64,
    left: u64,
) -> Where
    ensures { record { keys = keys.new; actors = actors.new; at = at_of result }
        ≡ wake_next (keyed keys.old actors.old) g clock left }
{
    match keys::front_at(keys, roster::REST) {
        Some(key) if left != 0 => {
            keys::pop_at(keys, roster::REST);
            wake_one(keys, actors, g, key, clock, left - 1)
        }
        _ => words::ready(g, clock, held(keys, roster::ready_row(g))),
    }
}

// The reply to Poll; one that does not fit changes nothing.
#[tactic(auto, unfolding(crate::specs::Waking::poll_reply))]
pub fn poll_reply(
    keys: &mut [KeyRow],
    actors: &mut [ActorRow],
    g: usize,
    key: u8,
    clock: u64,
    left: u64,
    reply: Reply,
) -> Where
    ensures { record { keys = keys.new; actors = actors.new; at = at_of result }
        ≡ poll_reply (keyed keys.old actors.old) (who_of g key) clock left reply }
{
    let Some(n) = question::count_in(reply) else {
        return words::wake_poll(g, key, clock, left);
    };
    woken_to(keys, actors, g, key, 0 < n);
    words::wake_next(g, clock, left)
}
