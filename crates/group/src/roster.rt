// The keys of a group's actors: four rows of the table of key lists for each group (slab, ready, idle, waiting), and
// two rows for a turn: what is left of a waiting list that is being gone through, and the keys of trapped actors.
ghost use Rattle.std.specs.Prelude.{◌≡◌, ◌+◌, ◌*◌, ◌<◌, ltb};
ghost use Rattle.lists.specs.Links.{pick, GROUPS};
ghost use Rattle.group.specs.Roster.{
  slab_row,
  ready_row,
  idle_row,
  waiting_row,
  slot_at,
  push_key,
  live_of,
  schedule_of,
  spawn_key,
  spawn_of,
  idle_key,
  pop_idle_of,
  better_of,
  least_of,
  live_len,
  load_of,
};

use actor::state::{ActorRow, Mode};
use actor::{question, state};
use lists::keys::KeyRow;
use lists::{LinkRow, keys, slab};
use points::at;

// The rest of the waiting list that is being gone through.
pub const REST: usize = 32;

// The keys that answered Trapped with yes.
pub const TRAPPED: usize = 33;

// As many rows as there are: also a number that no row has. Kept: the clauses of `slab_row` and the three below it
// promise this number for a group that there is none of, so that they give no `Option`.
pub const ROWS: usize = 34;

// A row of a group's four, from group 8 on past the table's end.
fn row_of(g: usize, list: usize) -> usize
    requires { list < 4 }
    ensures { result ≡ pick (ltb g GROUPS) (4 * g + list) ROWS }
{
    if g < lists::GROUPS {
        4 * g + list
    } else {
        ROWS
    }
}

pub fn slab_row(g: usize) -> usize
    ensures { result ≡ slab_row g }
{
    row_of(g, 0)
}

pub fn ready_row(g: usize) -> usize
    ensures { result ≡ ready_row g }
{
    row_of(g, 1)
}

pub fn idle_row(g: usize) -> usize
    ensures { result ≡ idle_row g }
{
    row_of(g, 2)
}

pub fn waiting_row(g: usize) -> usize
    ensures { result ≡ waiting_row g }
{
    row_of(g, 3)
}

// The slot of an actor among the lists.
pub fn slot_at(g: usize, key: u8) -> usize
    ensures { result ≡ slot_at g key }
{
    question::slot_of(at::who_of(g, key))
}

// A key joins a list.
#[tactic(auto, unfolding(crate::specs::Roster::push_key))]
pub fn push_key(keys: &mut [KeyRow], row: usize, key: u8)
    ensures { keys.new ≡ push_key keys.old row key }
{
    keys::push_at(keys, row, key);
}

// Whether the group has an actor of this key.
#[tactic(auto, unfolding(crate::specs::Roster::live_of))]
pub fn live(keys: &[KeyRow], g: usize, key: u8) -> bool
    ensures { result ≡ live_of keys.now g key }
{
    slot_at(g, key) < lists::SLOTS && slab::contains_at(keys, slab_row(g), key)
}

// How many actors the group has.
#[tactic(auto, unfolding(crate::specs::Roster::live_len))]
pub fn live_len(keys: &[KeyRow], g: usize) -> u8
    ensures { result ≡ live_len keys.now g }
{
    slab::len_at(keys, slab_row(g))
}

// An actor is queued to run, once however often it is woken before its turn.
#[tactic(auto, unfolding(crate::specs::Roster::schedule_of))]
pub fn schedule(keys: &mut [KeyRow], actors: &mut [ActorRow], g: usize, key: u8)
    ensures { record { keys = keys.new; actors = actors.new }
        ≡ schedule_of keys.old actors.old g key }
{
    let slot = slot_at(g, key);
    if live(keys, g, key) && !state::is_scheduled(actors, slot) {
        state::scheduled_at(actors, slot, true);
        push_key(keys, ready_row(g), key);
    }
}

// A new actor of this key, queued to run.
#[tactic(auto, unfolding(crate::specs::Roster::spawn_key))]
fn spawn_key(keys: &mut [KeyRow], actors: &mut [ActorRow], g: usize, key: u8, eval: bool)
    ensures { record { keys = keys.new; actors = actors.new }
        ≡ spawn_key keys.old actors.old g key eval }
{
    slab::insert_at(keys, slab_row(g));
    let mode = if eval { Mode::Eval } else { Mode::Fixed };
    state::new_at(actors, slot_at(g, key), mode);
    schedule(keys, actors, g, key);
}

// A new actor, queued to run, and its key.
#[tactic(auto, unfolding(crate::specs::Roster::spawn_of))]
pub fn spawn(keys: &mut [KeyRow], actors: &mut [ActorRow], g: usize, eval: bool) -> Option<u8>
    ensures { record { keys = keys.new; actors = actors.new; key = result }
        ≡ spawn_of keys.old actors.old g eval }
{
    let key = slab::vacant_at(keys, slab_row(g))?;
    spawn_key(keys, actors, g, key, eval);
    Some(key)
}

// Whether the group has an actor of this key that is idle.
#[tactic(auto, unfolding(crate::specs::Roster::idle_key))]
fn idle_key(keys: &[KeyRow], actors: &[ActorRow], g: usize, key: u8) -> bool
    ensures { result ≡ idle_key keys.now actors.now g key }
{
    live(keys, g, key) && state::is_idle(actors, slot_at(g, key))
}

// An idle actor of the group, taken from its idle list: the last whose actor is still there and idle. It and those
// after it leave the list.
#[tactic(auto, using(crate::proofs::Idle::popping))]
pub fn pop_idle(keys: &mut [KeyRow], actors: &[ActorRow], g: usize) -> Option<u8>
    ensures { record { keys = keys.new; key = result }
        ≡ pop_idle_of keys.old actors.now g }
{
    let row = idle_row(g);
    // Kept: a row whose count is above 64 has no last key and is popped all the same, which no `while let` would do.
    for _ in 0..keys::count_at(keys, row) {
        let last = keys::last_at(keys, row);
        keys::pop_end_at(keys, row);
        if let Some(key) = last {
            if idle_key(keys, actors, g, key) {
                return Some(key);
            }
        }
    }
    None
}

// How many messages an actor's mailbox has.
fn load(links: &[LinkRow], g: usize, key: u8) -> u64
    ensures { result ≡ load_of links.now g key }
{
    lists::length_of(links, lists::mailbox(slot_at(g, key)))
}

// The less loaded of an actor and the best so far, of equals the best so far.
#[tactic(auto, unfolding(crate::specs::Roster::better_of))]
fn better(links: &[LinkRow], g: usize, best: Option<u8>, key: u8) -> Option<u8>
    ensures { result ≡ better_of links.now g best key }
{
    match best {
        Some(b) if load(links, g, key) >= load(links, g, b) => best,
        _ => Some(key),
    }
}

// The actor of the group with the fewest messages in its mailbox, the first of the equals.
#[tactic(auto, using(crate::proofs::Loops::least), unfolding(crate::specs::Roster::least_of))]
pub fn least_loaded(keys: &[KeyRow], links: &[LinkRow], g: usize) -> Option<u8>
    ensures { result ≡ least_of keys.now links.now g }
{
    let row = slab_row(g);
    let mut best = None;
    for key in 0..slab::KEYS {
        if slab::contains_at(keys, row, key) {
            best = better(links, g, best, key);
        }
    }
    best
}
