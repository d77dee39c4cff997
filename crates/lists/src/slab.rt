// The keys of a group's actors, at most 16, as slab 0.4 gives them: the last freed key first, else the next that never
// was one. A row of 65 bytes of a table: the free keys as a list of `keys`, last freed last, and in the last cell how
// many keys were ever given. Its one invariant is `SlabSound` (specs/Slabs.antt): at most 16 keys were given, and the
// free ones are different ones of them. `contains_at` and `remove_at` scan the free keys; `insert_at` and `len_at` take
// constant time; `next_key_at` walks in rising key order. What each does to every key is said by the theorems of
// proofs/Slabs.antt: `inserted_live`, `removed_dead`, `last_freed_first`, `next_least`.
ghost use Rattle.std.specs.Prelude.{◌≡◌, ◌-◌, set};
ghost use Rattle.lists.specs.KeyLists.{keys_at};
ghost use Rattle.lists.specs.Slabs.{given_of, contains_of, vacant_of, insert_of, remove_of, live_count, next_key};

use crate::keys;
use crate::keys::KeyRow;

// The most keys: the most actors of a group.
pub const KEYS: u8 = 16;

// The cell that has how many keys were ever given: the last.
const GIVEN: usize = keys::FULL as usize;

// How many keys were ever given.
fn given_at(keys: &[KeyRow], i: usize) -> u8
    ensures { result ≡ given_of (keys_at keys.now i) }
{
    if i < keys.len() { keys[i][GIVEN] } else { 0 }
}

// How many keys were given is stored.
fn set_given_at(keys: &mut [KeyRow], i: usize, n: u8)
    ensures { keys.new ≡ set keys.old i (set (keys_at keys.old i) 64 n) }
{
    if i < keys.len() {
        keys[i][GIVEN] = n;
    }
}

// Whether an actor has this key.
#[tactic(auto, unfolding(crate::specs::Slabs::contains_of))]
pub fn contains_at(keys: &[KeyRow], i: usize, key: u8) -> bool
    ensures { result ≡ contains_of (keys_at keys.now i) key }
{
    key < given_at(keys, i) && !keys::holds_at(keys, i, key)
}

// The key that the next actor gets, where there is one.
#[tactic(auto, unfolding(crate::specs::Slabs::vacant_of))]
pub fn vacant_at(keys: &[KeyRow], i: usize) -> Option<u8>
    ensures { result ≡ vacant_of (keys_at keys.now i) }
{
    if keys::count_at(keys, i) != 0 {
        return keys::last_at(keys, i);
    }
    let given = given_at(keys, i);
    (given < KEYS).then_some(given)
}

// That key is taken.
#[tactic(auto, unfolding(crate::specs::Slabs::insert_of))]
pub fn insert_at(keys: &mut [KeyRow], i: usize)
    ensures { keys.new ≡ set keys.old i (insert_of (keys_at keys.old i)) }
{
    if keys::count_at(keys, i) != 0 {
        keys::pop_end_at(keys, i);
        return;
    }
    let given = given_at(keys, i);
    if given < KEYS {
        set_given_at(keys, i, given + 1);
    }
}

// A key is free again, where an actor has it.
#[tactic(auto, unfolding(crate::specs::Slabs::remove_of))]
pub fn remove_at(keys: &mut [KeyRow], i: usize, key: u8)
    ensures { keys.new ≡ set keys.old i (remove_of (keys_at keys.old i) key) }
{
    if contains_at(keys, i, key) {
        keys::append_at(keys, i, key);
    }
}

// How many actors there are.
pub fn len_at(keys: &[KeyRow], i: usize) -> u8
    ensures { result ≡ live_count (keys_at keys.now i) }
{
    given_at(keys, i).saturating_sub(keys::count_at(keys, i))
}

// The first key from `from` on that an actor has: a walk in rising key order.
#[tactic(auto, using(crate::proofs::Rows::next_more, crate::proofs::Rows::next_end))]
pub fn next_key_at(keys: &[KeyRow], i: usize, from: u8) -> Option<u8>
    ensures { result ≡ next_key (keys_at keys.now i) (16 - from) from }
{
    for key in from..KEYS {
        if contains_at(keys, i, key) {
            return Some(key);
        }
    }
    None
}
