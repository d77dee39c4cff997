// What a call answers; why one is refused.
// Kept: the pool and the two tables stay parameters, as each by itself is lent, and only two functions take them.
ghost use Rattle.std.specs.Prelude.{◌≡◌};
ghost use Rattle.turn.specs.Words.{pool_of};
ghost use Rattle.answers.specs.Answers.{number_of, log_refusal, open_by, answer_of};

use actor::message::MessageRow;
use actor::question::Question;
use lists::LinkRow;
use turn::state::PoolCells;
use turn::{asks, state};

// Why a call is refused. The discriminants are the numbers of docs/RULES.md, 8.
#[derive(Clone, Copy, PartialEq, Eq)]
pub enum Refusal {
    Setting = 1,
    Sizes = 2,
    LastId = 3,
    TooMuch = 4,
    TooLong = 5,
    InboxFull = 6,
    Closed = 7,
    TooMany = 8,
    NoId = 9,
    NoRoom = 10,
    OrderWaits = 11,
    NoFit = 12,
    InTurn = 13,
    StoreFailed = 14,
    NotLoaded = 17,
}

// The log's refusal as the pool's.
impl From<message_log::Refusal> for Refusal {
    ghost from_gives = { λ r own. own ≡ log_refusal r };

    fn from(r: message_log::Refusal) -> Refusal {
        match r {
            message_log::Refusal::Sizes => Refusal::Sizes,
            message_log::Refusal::LastId => Refusal::LastId,
            message_log::Refusal::TooMuch => Refusal::TooMuch,
            message_log::Refusal::TooLong => Refusal::TooLong,
            message_log::Refusal::Full => Refusal::TooMany,
            message_log::Refusal::NoId => Refusal::NoId,
            message_log::Refusal::NoRoom => Refusal::NoRoom,
        }
    }
}

// What a call answers: what `Called` means.
#[derive(Drop)]
pub enum Answer {
    Refused(Refusal),
    // accepted, and this is open now
    Open(Option<Question>),
    // accepted, and the turn ended with it: busy, and waiters
    Ended(bool, bool),
}

// How an accepted call went: something may be open now, or the turn ended with it.
// Kept: no `Option` of an end, as `Open` is an answer of its own: a question is open then, or nothing is.
#[derive(Clone, Copy, PartialEq, Eq)]
pub enum Accepted {
    Open,
    Ended { busy: bool, waiters: bool },
}

// How a call went. What is open is not among it: the pool and its tables tell it.
pub type Called = Result<Accepted, Refusal>;

// The number of a refusal.
pub fn number(r: Refusal) -> u64
    ensures { result ≡ number_of r }
{
    r as u64
}

// The order that waits, else the turn's question; after a failed order nothing.
pub fn open_now(pool: &PoolCells, links: &[LinkRow], rows: &[MessageRow]) -> Option<Question>
    ensures { result ≡ open_by (pool_of pool.now) links.now rows.now }
{
    asks::asked_in(state::disk_in(pool), state::where_in(pool), links, rows)
}

// The answer.
pub fn answer_of(called: Called, pool: &PoolCells, links: &[LinkRow], rows: &[MessageRow]) -> Answer
    ensures { result ≡ answer_of called (pool_of pool.now) links.now rows.now }
{
    match called {
        Err(r) => Answer::Refused(r),
        Ok(Accepted::Open) => Answer::Open(open_now(pool, links, rows)),
        Ok(Accepted::Ended { busy, waiters }) => Answer::Ended(busy, waiters),
    }
}
