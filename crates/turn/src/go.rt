// One running point of a turn: each is a function of route or tick.
ghost use Rattle.std.specs.Prelude.{◌≡◌};
ghost use Rattle.points.specs.Words.{point_of};
ghost use Rattle.points.specs.declared.at.Point.TheVariants as Point;
ghost use Rattle.turn.specs.Rail.{state_in, RailKept};
ghost use Rattle.turn.specs.Go.{go_of};
ghost use Rattle.turn.specs.Retry.{again_at};

use crate::state;
use crate::state::Rail;
use group::roster;
use lists::keys;
use points::at::Cursor;
use points::words;
use points::words::{Place, Where};
use route::{batch, intake, seed};
use tick::{crash, ready, settle, waking};

// The message in the hand of the next trapped actor, if it is tried again when that is retired.
fn again_trapped(t: &Rail, c: Cursor, left: u64) -> Option<usize>
    ensures { result ≡ again_at (state_in t.now) (Point.CrashTrapped c left) }
{
    if left == 0 {
        return None;
    }
    match keys::front_at(t.keys, roster::TRAPPED) {
        Some(key) => {
            let slot = roster::slot_at(c.group, key);
            let hand = lists::hand(slot);
            crash::again_first(t.groups, t.links, t.rows, c.group, hand)
        }
        None => None,
    }
}

// The message that a point tries again, if any.
#[tactic(auto, unfolding(crate::specs::Retry::again_at))]
pub(crate) fn again_at(t: &Rail, w: Where) -> Option<usize>
    ensures { result ≡ again_at (state_in t.now) (point_of w) }
{
    // Kept: tests and no `match`, for which the compiler looks up again what the turn's step has tested.
    let place = Place::from(w.place);
    if place == Place::Crash {
        return crash::again_first(t.groups, t.links, t.rows, w.group, lists::HAND);
    }
    if place.runs() && place != Place::CrashTrapped {
        return None;
    }
    // `CrashTrapped`, and what is no point is read as it
    again_trapped(t, words::cursor_of(w), w.more)
}

// A point of a turn that runs.
pub(crate) fn go(t: &mut Rail, w: Where)
    ensures kept { RailKept t.old t.new }
    ensures went { state_in t.new ≡ go_of (state_in t.old) (point_of w) }
{
    // Each arm takes of the rail what it uses, so that no arm loads the rest.
    let pool = &mut *t.pool;
    let count = state::groups(pool);
    let queued = state::queued(pool);
    let c = words::cursor_of(w);
    match Place::from(w.place) {
        Place::Seed => {
            let next = seed::seed(t.groups, count, t.keys, t.actors, c.group);
            state::stand_at(pool, next);
        }
        Place::Intake => {
            let backlog = state::backlog(pool);
            let next = intake::intake(t.links, queued, backlog, w.left);
            state::stand_at(pool, next);
        }
        Place::Route => {
            let rows = &mut *t.rows;
            let s = batch::route(
                t.groups, count, t.store, t.links, rows, t.keys, t.actors, queued, w.left,
            );
            let next = s.at;
            state::queue_at(pool, next, s.queued);
        }
        Place::Wake => {
            let next = waking::wake(t.keys, count, c.group, c.now);
            state::stand_at(pool, next);
        }
        Place::WakeNext => {
            let next = waking::wake_next(t.keys, t.actors, c.group, c.now, w.left);
            state::stand_at(pool, next);
        }
        Place::Ready => {
            let links = &mut *t.links;
            let stepped = state::stepped(pool);
            let s = ready::ready(
                links, t.keys, t.actors, queued, stepped, c.group, c.now, w.left,
            );
            let next = s.at;
            state::step_at(pool, next, s.queued, s.stepped);
        }
        Place::FixedEnd => {
            let step = words::end_of(w);
            let next = settle::fixed_end(c, step);
            state::stand_at(pool, next);
        }
        Place::EvalEnd => {
            let step = words::end_of(w);
            let next = settle::eval_end(c, step);
            state::stand_at(pool, next);
        }
        Place::Settle => {
            let rows = &mut *t.rows;
            let step = words::end_of(w);
            let s = settle::settle(t.links, rows, t.keys, t.actors, c, step, queued);
            let next = s.at;
            state::queue_at(pool, next, s.queued);
        }
        Place::Crash => {
            let losses = state::losses(pool);
            let more = crash::crash(t.groups, t.links, t.rows, c, losses);
            let next = words::ask_trap(c);
            state::lose_at(pool, next, queued, more);
        }
        Place::AskTrap => {
            let next = words::trap(c);
            state::stand_at(pool, next);
        }
        // `CrashTrapped`, and what is no point is read as it
        _ => {
            let losses = state::losses(pool);
            let s = crash::crash_trapped(
                t.groups, t.links, t.rows, t.keys, c, w.more, queued, losses,
            );
            let next = s.at;
            let more = s.losses;
            state::lose_at(pool, next, s.queued, more);
        }
    }
}
