// A step of a turn: at some points what is over gets its mark first, one order at a time; then the point runs. The
// loop stops at a question, an order, or the turn's end.
ghost use Rattle.std.specs.Prelude.{◌≡◌};
ghost use Rattle.points.specs.Words.{point_of};
ghost use Rattle.turn.specs.Retry.{retry_logged, retry_entry, ran_of};
ghost use Rattle.turn.specs.Rail.{state_in, RailKept};
ghost use Rattle.turn.specs.Step.{mark_logged, mark_first, mark_at, turn_step, advanced};

use crate::state::{Rail, What};
use crate::{go, state};
use actor::message;
use message_log::{LogId, wal};
use points::words::{Place, Where};

// A message that was logged as `id` gets its mark.
#[tactic(auto, unfolding(crate::specs::Step::mark_logged))]
fn mark_logged(t: &mut Rail, id: LogId)
    ensures kept { RailKept t.old t.new }
    ensures marked { state_in t.new ≡ mark_logged (state_in t.old) (Some id) }
{
    let pool = &mut *t.pool;
    let mut counters = state::counters(pool);
    let limit = state::compact_at(pool);
    let due = wal::mark(&mut counters, t.log, t.records, limit, id);
    state::set_log(
        pool,
        counters,
        state::waiting(due, u64::from(What::Mark), id.0),
    );
}

// The first message that is over: its entry is free, and its mark is ordered.
#[tactic(auto, unfolding(crate::specs::Step::mark_first, crate::specs::Step::mark_logged))]
fn mark_first(t: &mut Rail)
    ensures kept { RailKept t.old t.new }
    ensures marked { state_in t.new ≡ mark_first (state_in t.old) }
{
    let links = &mut *t.links;
    match lists::first(links, lists::OVER) {
        Some(e) => {
            let rows = &mut *t.rows;
            let id = message::id_at(rows, e);
            lists::move_first(links, lists::OVER, lists::FREE);
            match id {
                Some(number) => mark_logged(t, number),
                None => {}
            }
        }
        None => {}
    }
}

// What is over gets its mark first, at the points that say so.
fn mark_at(t: &mut Rail, w: Where)
    ensures kept { RailKept t.old t.new }
    ensures marked { state_in t.new ≡ mark_at (state_in t.old) (point_of w) }
{
    if state::marks_at(w) {
        mark_first(t);
    }
}

// The attempts of a message that was logged as `id` are written.
#[tactic(auto, unfolding(crate::specs::Retry::retry_logged))]
fn retry_logged(t: &mut Rail, id: LogId, attempts: u64)
    ensures kept { RailKept t.old t.new }
    ensures wrote { state_in t.new ≡ retry_logged (state_in t.old) (Some id) attempts }
{
    let pool = &mut *t.pool;
    let mut counters = state::counters(pool);
    let due = wal::retry(&mut counters, t.log, t.records, id, attempts);
    state::set_log(
        pool,
        counters,
        state::waiting(due, u64::from(What::Retry), id.0),
    );
}

// The attempts of the message that a point tried again are written, if it was logged.
#[tactic(auto, unfolding(crate::specs::Retry::retry_entry, crate::specs::Retry::retry_logged))]
fn retry_entry(t: &mut Rail, again: Option<usize>)
    ensures kept { RailKept t.old t.new }
    ensures wrote { state_in t.new ≡ retry_entry (state_in t.old) again }
{
    match again {
        Some(e) => {
            let rows = &mut *t.rows;
            let id = message::id_at(rows, e);
            let attempts = message::attempts_at(rows, e);
            match id {
                Some(number) => retry_logged(t, number, attempts),
                None => {}
            }
        }
        None => {}
    }
}

// The point runs, and what it tried again is written.
#[tactic(auto, unfolding(crate::specs::Retry::ran_of))]
fn run_point(t: &mut Rail, w: Where)
    ensures kept { RailKept t.old t.new }
    ensures ran { state_in t.new ≡ ran_of (state_in t.old) (point_of w) }
{
    let again = go::again_at(t, w);
    go::go(t, w);
    retry_entry(t, again);
}

// One step of the turn, where it runs: the marks first; then the point, unless an order waits.
#[tactic(auto, using(points::proofs::WordLaws::at_runs, crate::proofs::StepLaws::step_stays), unfolding(crate::specs::Step::turn_step))]
fn step(t: &mut Rail)
    ensures kept { RailKept t.old t.new }
    ensures stepped { state_in t.new ≡ turn_step (state_in t.old) }
{
    let pool = &mut *t.pool;
    let w = state::where_in(pool);
    if Place::from(w.place).runs() {
        mark_at(t, w);
        let pool = &mut *t.pool;
        let free = state::disk_free(pool);
        if free {
            run_point(t, w);
        }
    }
}

// Runs until a question, an order or the end.
// Kept: a `while`, since it counts nothing: whether it goes on is read of the pool.
pub fn advance(t: &mut Rail)
    ensures kept { RailKept t.old t.new }
    ensures advanced { state_in t.new ≡ advanced (state_in t.old) }
{
    while state::running(t.pool) {
        step(t);
    }
}
