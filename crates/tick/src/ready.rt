// A group's ready list is popped, and each actor that has work is stepped once.
ghost use Rattle.std.specs.Prelude.{◌≡◌};
ghost use Rattle.points.specs.Words.{at_of};
ghost use Rattle.actor.specs.Actors.{actor_at};
ghost use Rattle.tick.specs.Ready.{
  rests_of,
  begin_fixed,
  begin_eval,
  begin_step,
  ready_key,
  ready_of,
  begun_of,
  readying,
};

use actor::state;
use actor::state::{ActorRow, Mode};
use group::roster;
use lists::keys::KeyRow;
use lists::{LinkRow, keys};
use points::at::Cursor;
use points::words::Where;
use points::{at, words};
use steps::{eval, fixed};

// The next point, the new queued, and whether an actor was stepped.
#[derive(Drop)]
pub struct Begun {
    pub at: Where,
    pub queued: u64,
    pub stepped: bool,
}

// Whether an actor has no work: an empty mailbox, and it ran and is not runnable.
#[tactic(auto, unfolding(crate::specs::Ready::rests_of))]
fn rests(actors: &[ActorRow], slot: usize, waiting: u64) -> bool
    ensures { result ≡ rests_of (actor_at actors.now slot) waiting }
{
    waiting == 0 && !state::is_runnable(actors, slot) && state::has_run_once(actors, slot)
}

// A step of a fixed actor begins.
#[tactic(auto, unfolding(steps::specs::Words::fixed_kind_of, crate::specs::Ready::begin_fixed))]
fn begin_fixed(actors: &mut [ActorRow], c: Cursor, slot: usize) -> Where
    ensures { record { actors = actors.new; at = at_of result } ≡ begin_fixed actors.old c slot }
{
    words::fixed(c, fixed::fixed_start(actors, slot) as u64)
}

// A step of an eval actor begins; one with no run and no mail ends at once.
#[tactic(auto, unfolding(crate::specs::Ready::begin_eval))]
fn begin_eval(
    links: &mut [LinkRow],
    actors: &mut [ActorRow],
    c: Cursor,
    slot: usize,
    queued: u64,
) -> Begun
    ensures { record { links = links.new; actors = actors.new; begun = begun_of result }
        ≡ begin_eval links.old actors.old c slot queued }
{
    let s = eval::eval_start(links, actors, slot, queued);
    Begun {
        at: at::eval_after(c, s.next),
        queued: s.queued,
        stepped: true,
    }
}

// The actor of a slot is stepped.
#[tactic(auto, unfolding(crate::specs::Ready::begin_step))]
fn begin_step(
    links: &mut [LinkRow],
    actors: &mut [ActorRow],
    c: Cursor,
    slot: usize,
    queued: u64,
) -> Begun
    ensures { record { links = links.new; actors = actors.new; begun = begun_of result }
        ≡ begin_step links.old actors.old c slot queued }
{
    let mode = state::mode_at(actors, slot);
    state::began_at(actors, slot);
    match mode {
        Mode::Fixed => Begun {
            at: begin_fixed(actors, c, slot),
            queued,
            stepped: true,
        },
        Mode::Eval => begin_eval(links, actors, c, slot, queued),
    }
}

// A key of the ready list: its actor is scheduled no more, and stepped if it has work.
#[tactic(auto, unfolding(crate::specs::Ready::ready_key))]
fn ready_key(
    links: &mut [LinkRow],
    keys: &[KeyRow],
    actors: &mut [ActorRow],
    c: Cursor,
    queued: u64,
    stepped: bool,
) -> Begun
    ensures { record { links = links.new; actors = actors.new; begun = begun_of result }
        ≡ ready_key (readying links.old keys.now actors.old queued stepped) c }
{
    if roster::live(keys, c.group, c.key) {
        let slot = roster::slot_at(c.group, c.key);
        let done = rests(actors, slot, lists::length_of(links, lists::mailbox(slot)));
        state::scheduled_at(actors, slot, false);
        if !done {
            return begin_step(links, actors, c, slot, queued);
        }
    }
    Begun {
        at: at::ready_after(c),
        queued,
        stepped,
    }
}

// The next key of the ready list, or the next group.
#[tactic(auto, unfolding(crate::specs::Ready::ready_of))]
pub fn ready(
    links: &mut [LinkRow],
    keys: &mut [KeyRow],
    actors: &mut [ActorRow],
    queued: u64,
    stepped: bool,
    g: usize,
    clock: u64,
    pops: u64,
) -> Begun
    ensures { record { links = links.new; keys = keys.new; actors = actors.new; begun = begun_of result }
        ≡ ready_of (readying links.old keys.old actors.old queued stepped) g
        clock pops }
{
    let row = roster::ready_row(g);
    match keys::front_at(keys, row) {
        Some(key) if pops != 0 => {
            keys::pop_at(keys, row);
            let c = Cursor {
                group: g,
                key,
                now: clock,
                pops: pops - 1,
            };
            ready_key(links, keys, actors, c, queued, stepped)
        }
        _ => Begun {
            at: words::wake(at::next_group(g), clock),
            queued,
            stepped,
        },
    }
}
