// 256 entries, one for each message, each of which stands in exactly one of 262 lists: the six places of a message,
// and what is free. All of it is one lent table, `links`: row k has the first entry, the last entry and the length of
// list k, and the entry after entry k. Its one invariant is `Good` (specs/Family.antt): the links are well formed, and
// every entry stands in one list, at one place. Every operation takes constant time (but `start`, which writes every
// row), requires nothing, and equals a definition of specs/Links.antt whatever the table holds. What each does to
// every list is said by theorems: `move_first_lem`, `move_first_to_front_lem`, `move_all_lem` (proofs/Moves.antt),
// `first_is`, `after_is`, `no_circle`, `nowhere_else` (proofs/Family.antt), `started` (proofs/AtStart.antt).
#![tactic(auto)]

ghost use Rattle.std.specs.Prelude.{◌≡◌, ◌<◌, [], get_or, length};
ghost use Rattle.lists.specs.Links.{link_of, link_at, len_of, set_ends, set_next, first_of, leave_of, can_move};
ghost use Rattle.lists.specs.Links.{join_end, join_front, move_first, move_first_to_front, move_all, start_row};
ghost use Rattle.lists.specs.Links.{start_from, mailbox_of, hand_of};

pub mod keys; // lists of 64 keys: ready, idle, waiting
pub mod slab; // the keys of a group's actors, as slab 0.4 gives them

// Entries that are free.
pub const FREE: usize = 0;

// Accepted, and not yet taken in by a turn.
pub const INBOX: usize = 1;

// To be routed.
pub const PENDING: usize = 2;

// Being routed.
pub const BATCH: usize = 3;

// Over, with the mark not yet ordered.
pub const OVER: usize = 4;

// In the hands of the step under way.
pub const HAND: usize = 5;

// The entries, one for each message.
pub const ENTRIES: usize = 256;

// The same, where messages are counted.
pub const MESSAGES: u64 = ENTRIES as u64;

// The last entry.
const LAST: u64 = MESSAGES - 1;

// The groups of actors.
pub const GROUPS: usize = 8;

// The actors' slots: each has a mailbox and a hand.
pub const SLOTS: usize = GROUPS * slab::KEYS as usize;

// As many lists as there are: also a number that no list has.
pub const LISTS: usize = 262;

// A row of the links, as it is lent: the numbers of a `Link`, in order.
// Kept: rows of numbers that name rows, since the memory is fixed and the caller's, who also saves and compares it.
pub type LinkRow = [u64; 4];

// A row of the table.
#[derive(Drop)]
pub struct Link {
    // of the list of this number: its first entry, its last, and how many it has
    pub head: u64,
    pub tail: u64,
    pub len: u64,
    // of the entry of this number: the one after it
    pub next: u64,
}

// A cell of a row of a table; past the table's end, or the row's, it is 0.
pub fn cell_at<const N: usize>(rows: &[[u64; N]], row: usize, i: usize) -> u64
    ensures { result ≡ get_or (get_or rows.now row []) i 0 }
{
    if row < rows.len() {
        rows[row].get(i).map_or(0, |cell| *cell)
    } else {
        0
    }
}

// The mailbox of an actor's slot, or a number that no list has.
#[tactic(auto, unfolding(crate::specs::Links::mailbox_of))]
pub fn mailbox(slot: usize) -> usize
    ensures { result ≡ mailbox_of slot }
{
    if slot < SLOTS { 6 + 2 * slot } else { LISTS }
}

// What an actor has in its hands, or a number that no list has.
// Kept: beside `mailbox`, as each is one line and its own; a third function that takes 6 or 7 is no plainer.
#[tactic(auto, unfolding(crate::specs::Links::hand_of))]
pub fn hand(slot: usize) -> usize
    ensures { result ≡ hand_of slot }
{
    if slot < SLOTS { 7 + 2 * slot } else { LISTS }
}

// A row of the table, past its end an empty one.
#[tactic(auto, unfolding(crate::specs::Links::link_at))]
fn link_at(links: &[LinkRow], i: usize) -> Link
    ensures { result ≡ link_at links.now i }
{
    let [head, tail, len, next] = if i < links.len() { links[i] } else { [0; 4] };
    Link {
        head,
        tail,
        len,
        next,
    }
}

// The ends and the length of a list are stored; past the table's end nothing is.
#[tactic(auto, unfolding(crate::specs::Links::set_ends, crate::specs::Links::link_at))]
fn set_ends(links: &mut [LinkRow], list: usize, head: u64, tail: u64, len: u64)
    ensures { links.new ≡ set_ends links.old list head tail len }
{
    if list < links.len() {
        links[list] = [head, tail, len, links[list][3]];
    }
}

// The entry after an entry is stored; past the table's end nothing is.
#[tactic(auto, unfolding(crate::specs::Links::set_next, crate::specs::Links::link_at))]
fn set_next(links: &mut [LinkRow], entry: usize, next: u64)
    ensures { links.new ≡ set_next links.old entry next }
{
    if entry < links.len() {
        let [head, tail, len, _] = links[entry];
        links[entry] = [head, tail, len, next];
    }
}

// Row i of the table at the start.
fn start_row(i: usize) -> LinkRow
    requires { i < usize.MAX }
    ensures { result ≡ start_row i }
{
    let next = i as u64 + 1;
    if i == FREE {
        [0, LAST, MESSAGES, next]
    } else {
        [0, 0, 0, next]
    }
}

// Every entry is free, in rising order, and every other list is empty.
#[tactic(auto, using(crate::proofs::AtStart::below_more, crate::proofs::AtStart::below_all))]
pub fn start(links: &mut [LinkRow])
    ensures { links.new ≡ start_from 0 (length links.old) }
{
    for (i, row) in links.iter_mut().enumerate() {
        *row = start_row(i);
    }
}

// How many entries a list has.
pub fn length_of(links: &[LinkRow], list: usize) -> u64
    ensures { result ≡ len_of links.now list }
{
    link_at(links, list).len
}

// The first entry of a list.
pub fn first(links: &[LinkRow], list: usize) -> Option<usize>
    ensures { result ≡ first_of links.now list }
{
    let l = link_at(links, list);
    (l.len != 0).then_some(l.head as usize)
}

// The first `count` entries of `from`, of which `last` is the last, leave it.
#[tactic(auto, unfolding(crate::specs::Links::leave_of))]
fn leave(links: &mut [LinkRow], from: usize, count: u64, last: u64)
    ensures { links.new ≡ leave_of links.old from count last }
{
    let f = link_at(links, from);
    let l = link_at(links, last as usize);
    set_ends(links, from, l.next, f.tail, f.len.saturating_sub(count));
}

// A run of `count` entries from `head` to `last` joins `to` at its end: the last entry of `to`, where it has one,
// links to it.
#[tactic(auto, unfolding(crate::specs::Links::join_end))]
fn join_end(links: &mut [LinkRow], to: usize, head: u64, count: u64, last: u64)
    ensures { links.new ≡ join_end links.old to head count last }
{
    let t = link_at(links, to);
    let joined = t.len.saturating_add(count);
    if t.len == 0 {
        set_ends(links, to, head, last, joined);
    } else {
        set_next(links, t.tail as usize, head);
        set_ends(links, to, t.head, last, joined);
    }
}

// A run of `count` entries from `head` to `last` joins `to` at its front: `last` links to the first entry of `to`.
#[tactic(auto, unfolding(crate::specs::Links::join_front))]
fn join_front(links: &mut [LinkRow], to: usize, head: u64, count: u64, last: u64)
    ensures { links.new ≡ join_front links.old to head count last }
{
    let t = link_at(links, to);
    let tail = if t.len == 0 { last } else { t.tail };
    set_next(links, last as usize, t.head);
    set_ends(links, to, head, tail, t.len.saturating_add(count));
}

// Whether a move from one list to another changes anything: they are two lists, and the first has an entry.
#[tactic(auto, unfolding(crate::specs::Links::can_move))]
fn can_move(links: &[LinkRow], from: usize, to: usize) -> bool
    ensures { result ≡ can_move links.now from to }
{
    from != to && to < links.len() && length_of(links, from) != 0
}

// The first entry of `from` goes to the end of `to`. Nothing changes where there is none, the two are the same, or one
// is no list.
#[tactic(auto, unfolding(crate::specs::Links::move_first, crate::specs::Links::can_move))]
pub fn move_first(links: &mut [LinkRow], from: usize, to: usize)
    ensures { links.new ≡ move_first links.old from to }
{
    if can_move(links, from, to) {
        let f = link_at(links, from);
        leave(links, from, 1, f.head);
        join_end(links, to, f.head, 1, f.head);
    }
}

// The first entry of `from` goes to the front of `to`. Nothing changes where there is none, the two are the same, or
// one is no list.
// Kept: beside `move_first`, as they differ in a call, `join_front` in place of `join_end`. One function of both would
// take it as a closure, with a bound that says of it what the contracts of these two say.
#[tactic(auto, unfolding(crate::specs::Links::move_first_to_front, crate::specs::Links::can_move))]
pub fn move_first_to_front(links: &mut [LinkRow], from: usize, to: usize)
    ensures { links.new ≡ move_first_to_front links.old from to }
{
    if can_move(links, from, to) {
        let f = link_at(links, from);
        leave(links, from, 1, f.head);
        join_front(links, to, f.head, 1, f.head);
    }
}

// Every entry of `from` goes to the end of `to`, in order. Nothing changes where there is none, the two are the same,
// or one is no list.
#[tactic(auto, unfolding(crate::specs::Links::move_all, crate::specs::Links::can_move))]
pub fn move_all(links: &mut [LinkRow], from: usize, to: usize)
    ensures { links.new ≡ move_all links.old from to }
{
    if can_move(links, from, to) {
        let f = link_at(links, from);
        leave(links, from, f.len, f.tail);
        join_end(links, to, f.head, f.len, f.tail);
    }
}
