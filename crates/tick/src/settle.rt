// `settle` of the Rust: a step's end puts the actor into a list, or takes it out of its group.
ghost use Rattle.std.specs.Prelude.{◌≡◌};
ghost use Rattle.steps.specs.Words.{parked_of, step_of};
ghost use Rattle.points.specs.Words.{at_of};
ghost use Rattle.tick.specs.Settle.{
  step_end,
  retire_key,
  leftover_of,
  release_of,
  block_at,
  yield_at,
  park_at,
  settle_of,
  settled_of,
};
ghost use Rattle.group.specs.Roster.{turn_tables};

use actor::message::MessageRow;
use actor::state;
use actor::state::ActorRow;
use group::{over, roster};
use lists::keys::KeyRow;
use lists::{LinkRow, keys, slab};
use points::at::Cursor;
use points::words::Where;
use points::{at, words};
use steps::step;
use steps::step::{End, StepEnd, StepWords};

// The next point, and the new queued.
#[derive(Drop)]
pub struct Settled {
    pub at: Where,
    pub queued: u64,
}

// What a fixed actor's step finished has its marks: Sends is asked.
pub fn fixed_end(c: Cursor, step: StepWords) -> Where
    ensures { at_of result ≡ step_end c (End.Fixed (step_of step)) }
{
    words::sends(c, step)
}

// What an eval actor's step finished has its marks: the actor is settled.
pub fn eval_end(c: Cursor, step: StepWords) -> Where
    ensures { at_of result ≡ step_end c (End.Eval (parked_of step)) }
{
    words::settle(c, step::going_on(step))
}

// A key is free again.
#[tactic(auto, unfolding(crate::specs::Settle::retire_key))]
pub(crate) fn retire(keys: &mut [KeyRow], g: usize, key: u8)
    ensures { keys.new ≡ retire_key keys.old g key }
{
    slab::remove_at(keys, roster::slab_row(g), key);
}

// The mailbox of an actor that is gone: back to pending if it ever took a message, else over. Queued changes as the
// mailbox does.
#[tactic(auto, unfolding(crate::specs::Settle::leftover_of))]
pub(crate) fn leftover(
    links: &mut [LinkRow],
    rows: &[MessageRow],
    slot: usize,
    consumed: bool,
    queued: u64,
) -> u64
    ensures { record { links = links.new; queued = result }
        ≡ leftover_of links.old rows.now slot consumed queued }
{
    let mailbox = lists::mailbox(slot);
    let before = lists::length_of(links, mailbox);
    if consumed {
        lists::move_all(links, mailbox, lists::PENDING);
    } else {
        over::over_all(links, rows, mailbox, before);
    }
    let more = queued.saturating_add(lists::length_of(links, mailbox));
    more.saturating_sub(before)
}

// An actor that ended or raised leaves its group.
#[tactic(auto, unfolding(crate::specs::Settle::release_of))]
fn release(
    links: &mut [LinkRow],
    rows: &[MessageRow],
    keys: &mut [KeyRow],
    actors: &[ActorRow],
    c: Cursor,
    queued: u64,
) -> u64
    ensures { record { links = links.new; keys = keys.new; queued = result }
        ≡ release_of rows.now
        (turn_tables links.old keys.old actors.now queued) c }
{
    let slot = roster::slot_at(c.group, c.key);
    let consumed = state::has_consumed(actors, slot);
    retire(keys, c.group, c.key);
    leftover(links, rows, slot, consumed, queued)
}

// Parked on a host call, it waits.
#[tactic(auto, unfolding(crate::specs::Settle::block_at))]
fn block_at(keys: &mut [KeyRow], actors: &mut [ActorRow], c: Cursor, until: Option<u64>)
    ensures { record { keys = keys.new; actors = actors.new }
        ≡ block_at keys.old actors.old c until }
{
    state::blocked_at(actors, roster::slot_at(c.group, c.key), until);
    roster::push_key(keys, roster::waiting_row(c.group), c.key);
}

// It handed the thread on: it runs again from the back of the ready list.
#[tactic(auto, unfolding(crate::specs::Settle::yield_at))]
fn yield_at(keys: &mut [KeyRow], actors: &mut [ActorRow], c: Cursor)
    ensures { record { keys = keys.new; actors = actors.new }
        ≡ yield_at keys.old actors.old c }
{
    state::yielded_at(actors, roster::slot_at(c.group, c.key));
    roster::schedule(keys, actors, c.group, c.key);
}

// An actor that goes on is put into a list of its group: idle, waiting or ready.
// Kept, here and in `settle`: a switch on how the step ended. Between two calls it lies in the pool's cells, as a
// number, where no closure can lie.
#[tactic(auto, unfolding(crate::specs::Settle::park_at, steps::specs::Words::parked_of))]
fn park(keys: &mut [KeyRow], actors: &mut [ActorRow], c: Cursor, step: StepWords)
    ensures { record { keys = keys.new; actors = actors.new }
        ≡ park_at keys.old actors.old c (parked_of step) }
{
    match StepEnd::from(step.end) {
        StepEnd::Waiting => roster::push_key(keys, roster::idle_row(c.group), c.key),
        StepEnd::Forever => block_at(keys, actors, c, None),
        StepEnd::Until => block_at(keys, actors, c, Some(step.until)),
        StepEnd::Yield | StepEnd::Done | StepEnd::Failed => yield_at(keys, actors, c),
    }
}

// A step is settled.
#[tactic(auto, unfolding(crate::specs::Settle::settle_of, steps::specs::Words::step_of))]
pub fn settle(
    links: &mut [LinkRow],
    rows: &[MessageRow],
    keys: &mut [KeyRow],
    actors: &mut [ActorRow],
    c: Cursor,
    step: StepWords,
    queued: u64,
) -> Settled
    ensures { record {
      links = links.new;
      keys = keys.new;
      actors = actors.new;
      settled = settled_of result;
    }
        ≡ settle_of rows.now
        (turn_tables links.old keys.old actors.old queued) c (step_of step) }
{
    let next = at::ready_after(c);
    match StepEnd::from(step.end) {
        StepEnd::Done => {
            let fewer = release(links, rows, keys, actors, c, queued);
            Settled {
                at: next,
                queued: fewer,
            }
        }
        StepEnd::Failed => {
            let fewer = release(links, rows, keys, actors, c, queued);
            let at = words::crash(c);
            Settled { at, queued: fewer }
        }
        StepEnd::Waiting | StepEnd::Forever | StepEnd::Until | StepEnd::Yield => {
            park(keys, actors, c, step);
            Settled { at: next, queued }
        }
    }
}
