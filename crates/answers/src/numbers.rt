// An answer in numbers, for a host that speaks in numbers: which answer it is, its values, and the message that it
// shows, if any. `numbers_of` gives them for every case of `Answer`; a refusal's value is its number (docs/RULES.md,
// 8). Two answers of the same numbers are the same answer (`AnswerSays` in specs/Numbers).
ghost use Rattle.std.specs.Prelude.{◌≡◌};
ghost use Rattle.answers.specs.Numbers.{
  flag_number,
  plain_numbers,
  order_numbers,
  actor_numbers,
  question_numbers,
  asked_numbers,
  numbers_of,
};

use crate::answer;
use crate::answer::Answer;
use actor::question::{Question, Who};
use message_log::Order;

// Which answer, and its values a, b and c. Kept as numbers: hosts in other languages read them (docs/PROTOCOL.md, and
// `kind` of the exported `Shown` in crates/drive).

// nothing is open
pub const NOTHING: u64 = 0;

// a: the refusal's number
pub const REFUSED: u64 = 1;

// a turn ended; a: busy; b: waiters
pub const ENDED: u64 = 2;

// append to the file; a: from this byte of the log; b: to this one
pub const APPEND: u64 = 3;

// replace the file; a: by so many bytes of the log
pub const REPLACE: u64 = 4;

pub const FLUSH: u64 = 5;

// a: group
pub const BOOT: u64 = 6;

pub const CLOCK: u64 = 7;

// a: group; b: key; the same of the next two
pub const POLL: u64 = 8;

pub const DRAIN: u64 = 9;

pub const DISPATCH: u64 = 10;

// a: group; b: key; c: 1 for a start, 0 for a resume
pub const RUN: u64 = 11;

// a: group; b: key
pub const PUSH: u64 = 12;

// a: group; b: key
pub const SENDS: u64 = 13;

// a: group
pub const TRAP: u64 = 14;

// a: group; b: key
pub const TRAPPED: u64 = 15;

// a: caller; b: outcome
pub const TELL: u64 = 16;

#[derive(Drop)]
pub struct AnswerNumbers {
    // one of the numbers above
    pub kind: u64,
    // its values; those that it does not have are 0
    pub a: u64,
    pub b: u64,
    pub c: u64,
    // the message in question (actor::part says where it stands in the body store)
    pub message: Option<usize>,
}

// 1 for true, 0 for false.
// Kept: `u64::from`, under a contract that names the definition `flag_number`, by which answers are proved.
pub fn flag(b: bool) -> u64
    ensures { result ≡ flag_number b }
{
    u64::from(b)
}

// Two values, and no message.
fn plain(kind: u64, a: u64, b: u64) -> AnswerNumbers
    ensures { result ≡ plain_numbers kind a b }
{
    AnswerNumbers {
        kind,
        a,
        b,
        c: 0,
        message: None,
    }
}

// An order to the disk.
fn order_numbers(o: Order) -> AnswerNumbers
    ensures { result ≡ order_numbers o }
{
    match o {
        Order::Append(a, b) => plain(APPEND, a as u64, b as u64),
        Order::Replace(n) => plain(REPLACE, n as u64, 0),
        Order::Flush => plain(FLUSH, 0, 0),
    }
}

// A question to an actor.
fn actor_numbers(kind: u64, who: Who) -> AnswerNumbers
    ensures { result ≡ actor_numbers kind who }
{
    plain(kind, who.group as u64, who.key as u64)
}

fn question_numbers(q: Question) -> AnswerNumbers
    ensures { result ≡ question_numbers q }
{
    match q {
        Question::Boot(g) => plain(BOOT, g as u64, 0),
        Question::Clock => plain(CLOCK, 0, 0),
        Question::Poll(who) => actor_numbers(POLL, who),
        Question::Drain(who) => actor_numbers(DRAIN, who),
        Question::Dispatch(who) => actor_numbers(DISPATCH, who),
        Question::Run {
            who,
            start,
            message,
        } => AnswerNumbers {
            kind: RUN,
            a: who.group as u64,
            b: who.key as u64,
            c: flag(start),
            message,
        },
        Question::Push { who, message } => AnswerNumbers {
            kind: PUSH,
            a: who.group as u64,
            b: who.key as u64,
            c: 0,
            message,
        },
        Question::Sends(who) => actor_numbers(SENDS, who),
        Question::Trap(g) => plain(TRAP, g as u64, 0),
        Question::Trapped(who) => actor_numbers(TRAPPED, who),
        Question::Tell(caller, outcome) => plain(TELL, caller.0, outcome as u64),
        Question::Store(order) => order_numbers(order),
    }
}

// What is open after an accepted call.
fn asked_numbers(a: Option<Question>) -> AnswerNumbers
    ensures { result ≡ asked_numbers a }
{
    match a {
        Some(q) => question_numbers(q),
        None => plain(NOTHING, 0, 0),
    }
}

// The numbers of an answer.
pub fn numbers_of(given: Answer) -> AnswerNumbers
    ensures { result ≡ numbers_of given }
{
    match given {
        Answer::Refused(r) => plain(REFUSED, answer::number(r), 0),
        Answer::Ended(busy, waiters) => plain(ENDED, flag(busy), flag(waiters)),
        Answer::Open(asked) => asked_numbers(asked),
    }
}
