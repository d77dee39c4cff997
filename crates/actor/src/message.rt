// A message's row: how often it was tried, how long its name and body are, who waits for its outcome, and under which
// id it is logged. Its bytes are in the body store, at the entry's number. A log id and a caller id are types of their
// own: one never stands for the other.
#![tactic(auto, unfolding(crate::specs::Messages::message_at, crate::specs::Messages::put_message))]

ghost use Rattle.std.specs.Prelude.{◌≡◌};
ghost use Rattle.actor.specs.Messages.{message_at, put_message, tried_of};

use crate::cells::number_at;
use lists::cell_at;
use message_log::LogId;

// The most bytes of a name and of a body, as a row counts them.
pub const NAME: u64 = message_log::NAME as u64;

pub const BODY: u64 = message_log::BODY as u64;

// Who waits for the outcome (the Rust's `Reply.id`).
#[derive(Clone, Copy)]
pub struct CallerId(pub u64);

// A message's row, as it is lent: the attempts, the two lengths, whether there is a caller and its id, whether
// there is a record and its id.
// Kept: a tag and a number for each id, since the row is lent memory of numbers.
pub type MessageRow = [u64; 7];

// The cells of a row, in order; of the two tags 0 is no.
const ATTEMPTS: usize = 0;

const NAME_LEN: usize = 1;

const BODY_LEN: usize = 2;

const HAS_CALLER: usize = 3;

const CALLER: usize = 4;

const IS_LOGGED: usize = 5;

const LOG_ID: usize = 6;

// What a row means.
#[derive(Drop)]
pub struct Message {
    // how often an actor crashed over it
    pub attempts: u64,
    // the lengths of its group's name and of its body
    pub name_len: u64,
    pub body_len: u64,
    pub caller: Option<CallerId>,
    pub id: Option<LogId>,
}

// ---- a row of the table; past the table's end it is that of no message: empty, not logged, and nobody waits
// Kept: one reader for each cell, a line each over `cell_at` and `number_at`: each says by its contract which field of
// the message its cell means, and callers name no cells.

// How often it was tried.
pub fn attempts_at(rows: &[MessageRow], entry: usize) -> u64
    ensures { result ≡ (message_at rows.now entry).attempts }
{
    cell_at(rows, entry, ATTEMPTS)
}

// How long its group's name is.
pub fn name_len_at(rows: &[MessageRow], entry: usize) -> u64
    ensures { result ≡ (message_at rows.now entry).name_len }
{
    cell_at(rows, entry, NAME_LEN)
}

// How long its body is.
pub fn body_len_at(rows: &[MessageRow], entry: usize) -> u64
    ensures { result ≡ (message_at rows.now entry).body_len }
{
    cell_at(rows, entry, BODY_LEN)
}

// Who waits for its outcome.
pub fn caller_at(rows: &[MessageRow], entry: usize) -> Option<CallerId>
    ensures { result ≡ (message_at rows.now entry).caller }
{
    number_at(rows, entry, HAS_CALLER, CALLER).map(CallerId)
}

// Its record.
pub fn id_at(rows: &[MessageRow], entry: usize) -> Option<LogId>
    ensures { result ≡ (message_at rows.now entry).id }
{
    number_at(rows, entry, IS_LOGGED, LOG_ID).map(LogId)
}

// A row of the table is stored; past its end nothing is.
pub fn put_row(rows: &mut [MessageRow], entry: usize, m: Message)
    ensures { rows.new ≡ put_message rows.old entry m }
{
    if entry < rows.len() {
        rows[entry] = [
            m.attempts,
            m.name_len,
            m.body_len,
            m.caller.is_some() as u64,
            m.caller.map_or(0, |c| c.0),
            m.id.is_some() as u64,
            m.id.map_or(0, |l| l.0),
        ];
    }
}

// One attempt more, held at the largest number.
pub fn tried_at(rows: &mut [MessageRow], entry: usize)
    ensures { rows.new
        ≡ put_message rows.old entry (tried_of (message_at rows.old entry)) }
{
    let m = Message {
        attempts: attempts_at(rows, entry).saturating_add(1),
        name_len: name_len_at(rows, entry),
        body_len: body_len_at(rows, entry),
        caller: caller_at(rows, entry),
        id: id_at(rows, entry),
    };
    put_row(rows, entry, m);
}
