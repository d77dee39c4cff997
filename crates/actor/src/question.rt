// The questions that a pool puts, and the replies to them, as enums. A reply is read by its kind: yes or no, a clock,
// a count, a status. Which kind a question wants is `kind_wanted` (specs/Questions); a clock must be below
// 2^63.
ghost use Rattle.std.specs.Prelude.{◌≡◌};
ghost use Rattle.actor.specs.Questions.{slot_of, yes_in, clock_in, count_in, ran_in, is_told, kind_of, outcome_of};

use crate::message::CallerId;
use lists::slab;
use message_log::Order;

// The keys of a group.
const KEYS: usize = slab::KEYS as usize;

// An actor: its group and its key there.
#[derive(Clone, Copy)]
pub struct Who {
    pub group: usize,
    pub key: usize,
}

// The slot of an actor among the lists, 16 for each group, or a number that no actor has.
#[tactic(auto, unfolding(crate::specs::Questions::slot_of))]
pub fn slot_of(who: Who) -> usize
    ensures { result ≡ slot_of who }
{
    if who.group < lists::GROUPS && who.key < KEYS {
        KEYS * who.group + who.key
    } else {
        lists::SLOTS
    }
}

// How a run came back.
#[derive(Clone, Copy, PartialEq, Eq)]
pub enum Status {
    Done,
    Exit,
    Preempted,
    Event,
    HostCall,
    Error,
    Broke,
}

// What a caller is told.
#[derive(Clone, Copy, PartialEq, Eq)]
pub enum Outcome {
    Ran,
    Unbooted,
    Broke,
    Raised,
    Late,
    StuckHostCall,
    StuckReceive,
}

// The outcome of a number, as `as u64` tells it; a number of no outcome is read as `StuckReceive`.
// Kept: an arm for each number, as in the `From<u64>` of the other enums: each names its own variants, and a number of
// none is read as another of them.
impl From<u64> for Outcome {
    ghost from_gives = { λ n outcome. outcome ≡ outcome_of n };

    #[tactic(auto, unfolding(crate::specs::Questions::outcome_of))]
    fn from(n: u64) -> Outcome {
        match n {
            0 => Outcome::Ran,
            1 => Outcome::Unbooted,
            2 => Outcome::Broke,
            3 => Outcome::Raised,
            4 => Outcome::Late,
            5 => Outcome::StuckHostCall,
            _ => Outcome::StuckReceive,
        }
    }
}

#[derive(Drop)]
pub enum Question {
    // of a group: may an actor, or an interpreter for a message, be booted?
    Boot(usize),
    Clock,
    Poll(Who),
    Drain(Who),
    Dispatch(Who),
    // start or resume; the start of an eval shows its message
    Run {
        who: Who,
        start: bool,
        message: Option<usize>,
    },
    Push {
        who: Who,
        message: Option<usize>,
    },
    Sends(Who),
    Trap(usize),
    Trapped(Who),
    Tell(CallerId, Outcome),
    Store(Order),
}

#[derive(Clone, Copy)]
pub enum Reply {
    Yes,
    No,
    // nanoseconds
    Clock(u64),
    Count(u64),
    Ran(Status),
    // a message that was sent; its bytes come beside the reply
    Message,
    // no more was sent
    End,
    Told,
    Stored,
    Failed,
}

// A reply read as yes or no.
pub fn yes_in(r: Reply) -> Option<bool>
    ensures { result ≡ yes_in r }
{
    match r {
        Reply::Yes => Some(true),
        Reply::No => Some(false),
        _ => None,
    }
}

// A reply read as a clock.
// Kept: this function and the next two each read their own variant, which no parameter can be.
pub fn clock_in(r: Reply) -> Option<u64>
    ensures { result ≡ clock_in r }
{
    match r {
        Reply::Clock(ns) => Some(ns),
        _ => None,
    }
}

// A reply read as a count.
pub fn count_in(r: Reply) -> Option<u64>
    ensures { result ≡ count_in r }
{
    match r {
        Reply::Count(n) => Some(n),
        _ => None,
    }
}

// A reply read as how a run came back.
pub fn ran_in(r: Reply) -> Option<Status>
    ensures { result ≡ ran_in r }
{
    match r {
        Reply::Ran(s) => Some(s),
        _ => None,
    }
}

// Whether a reply is that a caller was told.
// Kept: it names its own variant, as `is_message` of the crate answers does.
pub fn is_told(r: Reply) -> bool
    ensures { result ≡ is_told r }
{
    matches!(r, Reply::Told)
}

// The kind of a reply as a number; 0 is that of a clock of 2^63 or more, which nothing wants.
// Kept: a number, since the definitions `kind_of`, `kind_wanted` and `wanted_by` number the kinds, and what is proved
// of `reply_fits` (theorem/proofs/OrderShown.antt) is that the kinds of a turn are below 7.
pub fn kind_of(r: Reply) -> u64
    ensures { result ≡ kind_of r }
{
    match r {
        Reply::Yes | Reply::No => 1,
        Reply::Clock(ns) => { if ns <= 9223372036854775807 { 2 } else { 0 } }
        Reply::Count(_) => 3,
        Reply::Ran(_) => 4,
        Reply::Message | Reply::End => 5,
        Reply::Told => 6,
        Reply::Stored | Reply::Failed => 7,
    }
}
