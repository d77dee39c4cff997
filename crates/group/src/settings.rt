// A group's settings: a row of 37 cells, the ceiling, whether it is eval, the timeout, the retries, the length of its
// name, and the name's 32 bytes.
// Kept: a count beside the table of groups, since the public functions say what they do also where the table has fewer
// rows; and a place and a length beside the store, since names stand in it at such places.
ghost use Rattle.std.specs.Prelude.{◌≡◌, ℕ, Bool, [], ◌<◌, ◌≤◌, ◌&&◌, eqb, leb, get_or};
ghost use Rattle.message_log.specs.Opening.{NAME};
ghost use Rattle.group.specs.Settings.{
  group_at,
  agrees,
  named,
  by_name,
  has_name,
  group_named,
  loaded_in,
  last_where,
};

use actor::message;
use message_log::ENTRY;

// A group's row, as it is lent: the numbers of a `Group`, in order, the length of its name, and its 32 bytes.
pub type GroupRow = [u64; 37];

#[derive(Drop)]
pub struct Group {
    // the most actors: the lesser of its replicas and max_actors
    pub ceiling: u64,
    pub eval: bool,
    // seconds
    pub timeout: u64,
    pub retry: u64,
}

// A cell of a group's row, past the table's end 0. It is read where it stands: a row has 296 bytes.
fn cell_at(groups: &[GroupRow], g: usize, i: usize) -> u64
    requires { i < 37 }
    ensures { result ≡ get_or (get_or groups.now g []) i 0 }
{
    groups.get(g).map_or(0, |row| row[i])
}

// A row of the table, past its end an empty one.
#[tactic(auto, unfolding(crate::specs::Settings::group_at))]
pub fn group_at(groups: &[GroupRow], g: usize) -> Group
    ensures { result ≡ group_at groups.now g }
{
    Group {
        ceiling: cell_at(groups, g, 0),
        eval: cell_at(groups, g, 1) != 0,
        timeout: cell_at(groups, g, 2),
        retry: cell_at(groups, g, 3),
    }
}

// A byte of the store, past its end 0.
fn byte_at(store: &[u8], i: usize) -> u8
    ensures { result ≡ get_or store.now i 0 }
{
    store.get(i).copied().unwrap_or(0)
}

// Whether a group's name has the n bytes of the store, or of a name by itself, from `from` on.
fn same_bytes(groups: &[GroupRow], g: usize, store: &[u8], from: usize, n: usize) -> bool
    requires { (from < 65536) × (n ≤ 32) }
    ensures { result ≡ agrees (get_or groups.now g []) store.now from 0 n }
{
    (0..n).all(|i| cell_at(groups, g, 5 + i) == byte_at(store, from + i) as u64)
}

// Whether these n bytes are a group's name.
fn same_name(groups: &[GroupRow], g: usize, store: &[u8], from: usize, n: u64) -> bool
    requires { from < 65536 }
    ensures { result ≡ (leb n NAME && (eqb (get_or (get_or groups.now g []) 4 0) n
        && agrees (get_or groups.now g []) store.now from 0 n)) }
{
    n <= message::NAME
        && cell_at(groups, g, 4) == n
        && same_bytes(groups, g, store, from, n as usize)
}

// Whether the message of an entry, whose name has `len` bytes, is for a group.
#[tactic(auto, unfolding(crate::specs::Settings::named))]
fn is_for(groups: &[GroupRow], g: usize, store: &[u8], entry: usize, len: u64) -> bool
    ensures { result ≡ named (get_or groups.now g []) store.now entry len }
{
    entry < lists::ENTRIES && same_name(groups, g, store, ENTRY * entry, len)
}

// The last of the first `count` numbers that a test is true of.
fn last_where<F: Fn(usize) -> bool>(count: usize, test: F) -> Option<usize>
    requires { F.IsAlwaysCallable test }
    ensures { (p : ℕ → Bool) → ((g : ℕ) (b : Bool) → g < count → F.post test g b → b ≡ p g)
        → result ≡ last_where p count }
{
    for g in (0..count).rev() {
        if test(g) {
            return Some(g);
        }
    }
    None
}

// The group of a message's name, of two groups of one name the later one.
pub fn by_name(
    groups: &[GroupRow],
    count: usize,
    store: &[u8],
    entry: usize,
    len: u64,
) -> Option<usize>
    ensures { result ≡ by_name groups.now store.now entry len count }
{
    last_where(count, |g| is_for(groups, g, store, entry, len))
}

// Whether a group has this name.
#[tactic(auto, unfolding(crate::specs::Settings::has_name))]
fn has_name(groups: &[GroupRow], g: usize, name: &[u8]) -> bool
    ensures { result ≡ has_name (get_or groups.now g []) name.now }
{
    same_name(groups, g, name, 0, name.len() as u64)
}

// The group of a name given as bytes, of two groups of one name the later one.
fn group_named(groups: &[GroupRow], count: usize, name: &[u8]) -> Option<usize>
    ensures { result ≡ group_named groups.now name.now count }
{
    last_where(count, |g| has_name(groups, g, name))
}

// Whether the program of a name is loaded: the group that gets the messages of this name may have an actor.
#[tactic(auto, unfolding(crate::specs::Settings::loaded_in, crate::specs::Settings::group_at))]
pub fn loaded(groups: &[GroupRow], count: usize, name: &[u8]) -> bool
    ensures { result ≡ loaded_in groups.now name.now count }
{
    group_named(groups, count, name).is_some_and(|g| 0 < cell_at(groups, g, 0))
}
