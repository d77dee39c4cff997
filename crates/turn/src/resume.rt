// A reply to the turn's question leads to the next point or question. A message that was sent is kept by the caller:
// here Sends only ends.
ghost use Rattle.std.specs.Prelude.{◌≡◌, List, ℕ};
ghost use Rattle.lists.specs.Links.{Table};
ghost use Rattle.steps.specs.Words.{step_of};
ghost use Rattle.points.specs.Words.{ask_of, at_of};
ghost use Rattle.turn.specs.Words.{pool_of};
ghost use Rattle.turn.specs.Resume.{clock_reply, sends_reply, resume_of};

use crate::state;
use crate::state::PoolCells;
use actor::message::MessageRow;
use actor::question;
use actor::question::{Outcome, Reply};
use actor::state::ActorRow;
use group::settings::GroupRow;
use group::{roster, settings};
use lists::LinkRow;
use lists::keys::KeyRow;
use points::at::Cursor;
use points::words::{Place, Where};
use points::{at, words};
use route::{batch, seed};
use steps::eval::{EvalKind, Limit};
use steps::fixed::FixedKind;
use steps::step::StepWords;
use steps::{eval, fixed};
use tick::{crash, waking};

// The tick's clock; a reply that does not fit changes nothing.
fn clock_reply(reply: Reply) -> Where
    ensures { at_of result ≡ clock_reply reply }
{
    let came = question::clock_in(reply);
    match came {
        Some(ns) => words::wake(0, ns),
        None => words::tick_clock(),
    }
}

// No more was sent: the step is settled.
#[tactic(auto, unfolding(crate::specs::Resume::sends_reply))]
fn sends_reply(c: Cursor, step: StepWords, reply: Reply) -> Where
    ensures { at_of result ≡ sends_reply c (step_of step) reply }
{
    match reply {
        Reply::End => words::settle(c, step),
        _ => words::sends(c, step),
    }
}

// The turn's question is answered, whatever the log and the body store are.
// Kept: the tables stay parameters: it asks for the rows to be read only, and for no log and no store, all of which a
// `Rail` would ask of its caller.
pub fn resume(
    pool: &mut PoolCells,
    groups: &[GroupRow],
    links: &mut [LinkRow],
    rows: &[MessageRow],
    keys: &mut [KeyRow],
    actors: &mut [ActorRow],
    w: Where,
    reply: Reply,
)
    ensures { (bytes : List ℕ) (records : Table) (store : List ℕ) →
        record {
          pool = pool_of pool.new;
          bytes = bytes;
          records = records;
          store = store;
          groups = groups.now;
          links = links.new;
          rows = rows.now;
          keys = keys.new;
          actors = actors.new;
        }
        ≡ resume_of
        (record {
          pool = pool_of pool.old;
          bytes = bytes;
          records = records;
          store = store;
          groups = groups.now;
          links = links.old;
          rows = rows.now;
          keys = keys.old;
          actors = actors.old;
        })
        (ask_of w) reply }
{
    let queued = state::queued(pool);
    let c = words::cursor_of(w);
    match Place::from(w.place) {
        Place::SeedBoot => {
            let next = seed::seed_reply(keys, actors, c.group, reply);
            state::stand_at(pool, next);
        }
        Place::RouteBoot => {
            let s = batch::route_reply(links, rows, keys, actors, c.group, queued, w.left, reply);
            let next = s.at;
            state::queue_at(pool, next, s.queued);
        }
        Place::TickClock => {
            let next = clock_reply(reply);
            state::stand_at(pool, next);
        }
        Place::WakePoll => {
            let next = waking::poll_reply(keys, actors, c.group, c.key, c.now, w.left, reply);
            state::stand_at(pool, next);
        }
        Place::Fixed => {
            let step = FixedKind::from(w.step);
            let slot = roster::slot_at(c.group, c.key);
            let s = fixed::step_fixed(links, rows, actors, slot, queued, step, reply);
            let after = s.next;
            let next = at::fixed_after(c, after);
            state::queue_at(pool, next, s.queued);
        }
        Place::Eval => {
            let step = EvalKind::from(w.step);
            let outcome = Outcome::from(w.more);
            let group = settings::group_at(groups, c.group);
            let tick = state::tick(pool);
            let limit = Limit {
                timeout: group.timeout,
                tick,
            };
            let slot = roster::slot_at(c.group, c.key);
            let after = eval::step_eval(links, rows, actors, slot, limit, step, outcome, reply);
            let next = at::eval_after(c, after);
            state::stand_at(pool, next);
        }
        Place::Sends => {
            let step = words::end_of(w);
            let next = sends_reply(c, step, reply);
            state::stand_at(pool, next);
        }
        Place::Trap => {
            let next = crash::trap_reply(keys, c, reply);
            state::stand_at(pool, next);
        }
        // `Trapped`, and what is no question is read as it
        _ => {
            let other = words::key_of(w.more);
            let next = crash::trapped_reply(keys, c, other, reply);
            state::stand_at(pool, next);
        }
    }
}
