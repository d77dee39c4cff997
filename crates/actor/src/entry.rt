// A message put into a free entry of the body store: 160 bytes each, the name in the first 32, the body in the 128
// after it.
// Kept: the three tables stay parameters: only two functions pass them on, so that a struct of them would take as many
// lines as it spares.
ghost use Rattle.std.specs.Prelude.{◌≡◌};
ghost use Rattle.actor.specs.Entry.{put_bytes, store_entry, keep_at, keep_of};

use crate::message;
use crate::message::{CallerId, Message, MessageRow};
use lists::LinkRow;
use message_log::{ENTRY, LogId, NAME};

// A message that comes: its group's name, its body, who waits for its outcome, and the id that it is logged under.
#[derive(Clone, Copy)]
pub struct Arrival<'a> {
    pub name: &'a [u8],
    pub body: &'a [u8],
    pub caller: Option<CallerId>,
    pub id: Option<LogId>,
}

// Bytes written over a part of the store; where they do not fit nothing is.
#[tactic(auto, unfolding(crate::specs::Entry::put_bytes, text::specs::Bytes::write))]
fn put_bytes(store: &mut [u8], at: usize, bytes: &[u8])
    ensures { store.new ≡ put_bytes store.old at bytes.now }
{
    if at <= store.len() && bytes.len() <= store.len() - at {
        // Kept: a loop. By the library's copy the archives would ask their host for `memmove`, beside `memcpy` and
        // `memset`.
        for i in 0..bytes.len() {
            store[at + i] = bytes[i];
        }
    }
}

// The name and body of an entry.
#[tactic(auto, unfolding(crate::specs::Entry::store_entry))]
fn store_entry(store: &mut [u8], entry: usize, name: &[u8], body: &[u8])
    ensures { store.new ≡ store_entry store.old entry name.now
        body.now }
{
    if entry < lists::ENTRIES {
        put_bytes(store, ENTRY * entry, name);
        put_bytes(store, ENTRY * entry + NAME, body);
    }
}

// A message in this entry, the first of the free ones, which goes to the end of a list.
#[tactic(auto, unfolding(crate::specs::Entry::keep_at))]
fn keep_at(
    store: &mut [u8],
    links: &mut [LinkRow],
    rows: &mut [MessageRow],
    entry: usize,
    a: Arrival,
    to: usize,
)
    ensures { record { store = store.new; links = links.new; rows = rows.new }
        ≡ keep_at
        (record { store = store.old; links = links.old; rows = rows.old })
        entry
        (record { name = a.entry.name.now; body = a.entry.body.now; caller = a.entry.caller; id = a.entry.id })
        to }
{
    store_entry(store, entry, a.name, a.body);
    let row = Message {
        attempts: 0,
        name_len: a.name.len() as u64,
        body_len: a.body.len() as u64,
        caller: a.caller,
        id: a.id,
    };
    message::put_row(rows, entry, row);
    lists::move_first(links, lists::FREE, to);
}

// A message in the first free entry, which goes to the end of a list; with none free nothing changes.
#[tactic(auto, unfolding(crate::specs::Entry::keep_of))]
pub fn keep(store: &mut [u8], links: &mut [LinkRow], rows: &mut [MessageRow], a: Arrival, to: usize)
    ensures { record { store = store.new; links = links.new; rows = rows.new }
        ≡ keep_of
        (record { store = store.old; links = links.old; rows = rows.old })
        (record { name = a.entry.name.now; body = a.entry.body.now; caller = a.entry.caller; id = a.entry.id })
        to }
{
    if let Some(entry) = lists::first(links, lists::FREE) {
        keep_at(store, links, rows, entry, a, to);
    }
}
