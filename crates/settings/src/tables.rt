// The tables at the start, and the messages that a log left: entry i is the i-th of them, in pending.
ghost use Rattle.std.specs.Prelude.{◌≡◌, length, replicate};
ghost use Rattle.lists.specs.KeyLists.{blank_row};
ghost use Rattle.actor.specs.Messages.{put_message};
ghost use Rattle.settings.specs.Tables.{left_at, left_message, put_left};

use actor::message;
use actor::message::{Message, MessageRow};
use lists::LinkRow;
use lists::keys::KeyRow;
use message_log::LogId;
use message_log::opening::LeftRow;

// Every list of keys is empty.
#[tactic(auto, using(crate::proofs::Loops::blank_more, crate::proofs::Loops::blank_end))]
pub fn blank_keys(keys: &mut [KeyRow])
    ensures { keys.new ≡ replicate (length keys.old) blank_row }
{
    for row in keys {
        *row = [0; 65];
    }
}

// A row of what the log left, past the table's end an empty one: id, the lengths of name and body, and the attempts.
// Kept: one line, as `keys_at` of the crate lists is, which gives rows of another type.
fn left_row(left: &[LeftRow], i: usize) -> LeftRow
    ensures { result ≡ left_at left.now i }
{
    if i < left.len() { left[i] } else { [0; 4] }
}

// Its message's row.
fn put_left_row(rows: &mut [MessageRow], entry: usize, row: LeftRow)
    ensures { rows.new ≡ put_message rows.old entry (left_message row) }
{
    let [id, name_len, body_len, attempts] = row;
    let m = Message {
        attempts,
        name_len,
        body_len,
        caller: None,
        id: Some(LogId(id)),
    };
    message::put_row(rows, entry, m);
}

// The first n messages left get their rows, and go from the free entries to pending, in order.
// Kept: the number of messages beside the table, since it says what it does also where the table has fewer rows.
#[tactic(auto, using(crate::proofs::Loops::left_more, crate::proofs::Loops::left_end))]
pub fn put_left(links: &mut [LinkRow], rows: &mut [MessageRow], left: &[LeftRow], n: usize)
    ensures { record { links = links.new; rows = rows.new } ≡ put_left links.old
        rows.old left.now 0 n }
{
    for i in 0..n {
        put_left_row(rows, i, left_row(left, i));
        lists::move_first(links, lists::FREE, lists::PENDING);
    }
}
