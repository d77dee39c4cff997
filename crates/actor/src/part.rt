// The message in question as a part of the body store, not a copy: where its name and its body begin and end. A
// question names the message's entry (`Run` and `Push` of actor::question); the entry's row has the two lengths. The
// places lie inside the store of 40,960 bytes whatever the rows hold. Nothing is required.
ghost use Rattle.std.specs.Prelude.{◌≡◌};
ghost use Rattle.actor.specs.Part.{part_at, part_of, bytes_in};

use crate::message;
use crate::message::MessageRow;
use message_log::{ENTRY, NAME};

// From a byte up to another, this one left out.
// Kept: not std's `Range<usize>`, as the definition `Inside` of the theorem `part_inside` names `from` and `to`.
#[derive(Clone, Copy, Default)]
pub struct Span {
    pub from: usize,
    pub to: usize,
}

// Where a message's name and its body stand in the body store; of no message, at 0, and both are empty.
#[derive(Clone, Copy, Default)]
pub struct Part {
    pub name: Span,
    pub body: Span,
}

// An entry's part; none where there is no such entry, or its row lies outside the limits.
#[tactic(auto, unfolding(crate::specs::Part::part_at))]
fn part_at(rows: &[MessageRow], e: usize) -> Part
    ensures { result ≡ part_at rows.now e }
{
    let long = message::name_len_at(rows, e);
    let wide = message::body_len_at(rows, e);
    if e < lists::ENTRIES && long <= message::NAME && wide <= message::BODY {
        let name = ENTRY * e;
        let body = name + NAME;
        Part {
            name: Span {
                from: name,
                to: name + long as usize,
            },
            body: Span {
                from: body,
                to: body + wide as usize,
            },
        }
    } else {
        Part::default()
    }
}

// Where the message in question stands in the body store.
pub fn message_part(rows: &[MessageRow], message: Option<usize>) -> Part
    ensures { result ≡ part_of rows.now message }
{
    match message {
        None => Part::default(),
        Some(e) => part_at(rows, e),
    }
}

// The bytes of a span, as far as there are any.
pub fn bytes_in(bytes: &[u8], span: Span) -> &[u8]
    ensures { result.now ≡ bytes_in bytes.now span }
{
    let to = span.to.min(bytes.len());
    if span.from < to {
        &bytes[span.from..to]
    } else {
        &bytes[..0]
    }
}
