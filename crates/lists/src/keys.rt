// Lists of at most 64 keys of actors (a group's ready, idle or waiting list), each a row of 65 bytes of a table: how
// many keys there are, then the keys, in order. A list is changed where it lies; past the table's end a row reads as
// empty, and nothing is stored. Its one invariant is `Held` (specs/KeyLists.antt): the row has 65 cells, and the count
// is at most 64. Keys may stand in it more than once. A full list is squeezed by a push: only each key's first entry
// stays. Everything takes constant time but `pop_at` (a shift of 64 bytes), `holds_at` (a scan) and a push to a full
// list. Nothing is required; the definitions are exact for every row. What each does to the list of keys is said by
// the theorems of proofs/Queues.antt: `push_is`, `push_keeps`, `pop_front_is`, `pop_end_is`.
ghost use Rattle.std.specs.Prelude.{◌≡◌, set, drop};
ghost use Rattle.lists.specs.KeyLists.{blank_row, keys_at, count_of, front_of, last_of, holds_of, moved_last, pop_front};
ghost use Rattle.lists.specs.KeyLists.{pop_end, key_appended, add_absent, squeeze_of, push_of};

// The most keys of a list.
pub const FULL: u8 = 64;

// One more.
const PAST: u8 = FULL + 1;

// The cells of a row.
const CELLS: usize = PAST as usize;

// A row of the key lists, as it is lent: how many keys there are, then the keys.
// Kept: a buffer with its count, since the memory is fixed and the caller's, and the count is one of its cells.
pub type KeyRow = [u8; CELLS];

// ---- looking at a list

// How many keys there are.
// Kept: not by `cell_at`, which reads numbers of 64 bits: a reader of both would need the default as a parameter.
pub fn count_at(keys: &[KeyRow], i: usize) -> u8
    ensures { result ≡ count_of (keys_at keys.now i) }
{
    if i < keys.len() { keys[i][0] } else { 0 }
}

// The first key.
pub fn front_at(keys: &[KeyRow], i: usize) -> Option<u8>
    ensures { result ≡ front_of (keys_at keys.now i) }
{
    match keys.get(i) {
        Some(row) if row[0] != 0 => Some(row[1]),
        _ => None,
    }
}

// The last key.
pub fn last_at(keys: &[KeyRow], i: usize) -> Option<u8>
    ensures { result ≡ last_of (keys_at keys.now i) }
{
    match keys.get(i) {
        Some(row) if row[0] != 0 && row[0] <= FULL => Some(row[row[0] as usize]),
        _ => None,
    }
}

// Whether a key stands in the list.
#[tactic(auto, unfolding(crate::specs::KeyLists::holds_of, crate::specs::KeyLists::elem))]
pub(crate) fn holds_at(keys: &[KeyRow], i: usize, key: u8) -> bool
    ensures { result ≡ holds_of (keys_at keys.now i) key }
{
    i < keys.len() && holds(&keys[i], key)
}

// ---- changing a list

// The first key leaves, where there is one.
#[tactic(auto, using(crate::proofs::Rows::rows), unfolding(crate::specs::KeyLists::pop_front))]
pub fn pop_at(keys: &mut [KeyRow], i: usize)
    ensures { keys.new ≡ set keys.old i (pop_front (keys_at keys.old i)) }
{
    let n = count_at(keys, i);
    if i < keys.len() && n != 0 {
        shift(&mut keys[i]);
        keys[i][0] = n - 1;
    }
}

// The last key leaves, where there is one.
#[tactic(auto, unfolding(crate::specs::KeyLists::pop_end))]
pub fn pop_end_at(keys: &mut [KeyRow], i: usize)
    ensures { keys.new ≡ set keys.old i (pop_end (keys_at keys.old i)) }
{
    if i < keys.len() && keys[i][0] != 0 {
        keys[i][0] -= 1;
    }
}

// A key joins at the end; a full list stays as it is.
pub(crate) fn append_at(keys: &mut [KeyRow], i: usize, key: u8)
    ensures { keys.new ≡ set keys.old i (key_appended (keys_at keys.old i) key) }
{
    if i < keys.len() {
        append(&mut keys[i], key);
    }
}

// A key joins at the end. A full list first keeps only each key's first entry, and then takes the key if it is absent.
#[tactic(auto, unfolding(crate::specs::KeyLists::push_of))]
pub fn push_at(keys: &mut [KeyRow], i: usize, key: u8)
    ensures { keys.new ≡ set keys.old i (push_of (keys_at keys.old i) key) }
{
    if count_at(keys, i) < FULL {
        append_at(keys, i, key);
        return;
    }
    let held = keys_at(keys, i);
    let mut once = squeeze(&held);
    add_absent(&mut once, key);
    put_keys(keys, i, once);
}

// The list is empty.
pub fn clear_at(keys: &mut [KeyRow], i: usize)
    ensures { keys.new ≡ set keys.old i blank_row }
{
    put_keys(keys, i, [0; CELLS]);
}

// The list of one row becomes that of another, and is empty itself.
pub fn move_at(keys: &mut [KeyRow], from: usize, to: usize)
    ensures { keys.new
        ≡ set (set keys.old to (keys_at keys.old from)) from blank_row }
{
    let held = keys_at(keys, from);
    put_keys(keys, to, held);
    clear_at(keys, from);
}

// A row of the table, past its end an empty one.
// Kept: one line, as `left_row` of the crate settings is; one function of both would be public, and take the empty
// row.
fn keys_at(keys: &[KeyRow], i: usize) -> KeyRow
    ensures { result ≡ keys_at keys.now i }
{
    if i < keys.len() { keys[i] } else { [0; CELLS] }
}

// A row of the table is stored; past its end nothing is.
// Kept: as `put_cell` of the crate actor, which stores a number; one function of both would be public, for one line.
fn put_keys(keys: &mut [KeyRow], i: usize, row: KeyRow)
    ensures { keys.new ≡ set keys.old i row }
{
    if i < keys.len() {
        keys[i] = row;
    }
}

// ---- one row

// Whether a key stands in a row, of any length.
#[tactic(auto, unfolding(crate::specs::KeyLists::holds_of, crate::specs::KeyLists::elem))]
fn holds(keys: &[u8], key: u8) -> bool
    ensures { result ≡ holds_of keys.now key }
{
    match keys {
        [n, rest @ ..] => rest[..rest.len().min(*n as usize)].contains(&key),
        [] => false,
    }
}

// Every cell of a row after the count moves down by one, and the last is 0.
#[tactic(auto, using(crate::proofs::Rows::rows))]
fn shift(keys: &mut [u8])
    ensures { keys.new ≡ moved_last keys.old 1 0 }
{
    if keys.len() < 2 {
        return;
    }
    let last = keys.len() - 1;
    for j in 1..last {
        keys[j] = keys[j + 1];
    }
    keys[last] = 0;
}

// A key joins a row at the end; a full row stays as it is.
#[tactic(auto, unfolding(crate::specs::KeyLists::key_appended))]
fn append(row: &mut KeyRow, key: u8)
    ensures { row.new ≡ key_appended row.old key }
{
    let n = row[0];
    if n < FULL {
        row[n as usize + 1] = key;
        row[0] = n + 1;
    }
}

// A key joins a row at the end unless it stands in it.
#[tactic(auto, unfolding(crate::specs::KeyLists::add_absent))]
fn add_absent(row: &mut KeyRow, key: u8)
    ensures { row.new ≡ add_absent row.old key }
{
    if !holds(row, key) {
        append(row, key);
    }
}

// Only each key's first entry stays.
#[tactic(auto, using(crate::proofs::Rows::rows))]
fn squeeze(keys: &KeyRow) -> KeyRow
    ensures { result ≡ squeeze_of blank_row (drop 1 keys.now) }
{
    let mut out = [0; CELLS];
    for k in &keys[1..] {
        add_absent(&mut out, *k);
    }
    out
}
