// What both steps do: mail is taken, a message is over, an actor is idle.
ghost use Rattle.std.specs.Prelude.{◌≡◌};
ghost use Rattle.steps.specs.Words.{parked_of, step_end_of, step_of};
ghost use Rattle.steps.specs.Steps.{place_logged, place_over, caller_first, over_first, idled_at, take_mail};

use actor::message::{CallerId, MessageRow};
use actor::state::ActorRow;
use actor::{message, state};
use lists::LinkRow;
use message_log::LogId;

// How a step ended is handed on as words (`StepWords`), without payloads. `Parked`, `Step` and `End` are what they
// mean, and the definitions of specs/ speak of them.

// How a step left an actor that goes on. A step of an eval actor always ends so.
#[derive(Drop)]
pub enum Parked {
    // parked in receive()
    Waiting,
    // parked on a host call, woken at the latest then
    Blocked(Option<u64>),
    // it handed the thread on
    Yield,
}

// How a step of a fixed actor ended.
#[derive(Drop)]
pub enum Step {
    // it ran to its end
    Done,
    Parked(Parked),
    // it raised; the message that it was at is in the step's hand
    Failed,
}

// How a step ended, of an actor of either mode.
#[derive(Drop)]
pub enum End {
    Fixed(Step),
    Eval(Parked),
}

// How a step ended, without a deadline: `Forever` and `Until` are `Blocked`, with no deadline and with one.
#[derive(Clone, Copy, PartialEq, Eq)]
pub enum StepEnd {
    Done,
    Failed,
    Waiting,
    Forever,
    Until,
    Yield,
}

// The end of a number, as `as u64` tells it; a number of no end is read as `Yield`.
impl From<u64> for StepEnd {
    ghost from_gives = { λ n end. end ≡ step_end_of n };

    #[tactic(auto, unfolding(crate::specs::Words::step_end_of))]
    fn from(n: u64) -> StepEnd {
        match n {
            0 => StepEnd::Done,
            1 => StepEnd::Failed,
            2 => StepEnd::Waiting,
            3 => StepEnd::Forever,
            4 => StepEnd::Until,
            _ => StepEnd::Yield,
        }
    }
}

// A step's end as words. They mean a `Step`, and of an eval actor a `Parked` (specs/Words).
#[derive(Clone, Copy)]
pub struct StepWords {
    // the number of a `StepEnd`. Kept a number: any means an end, and functions that take these words answer for all.
    pub end: u64,
    // the deadline of `Until`. Kept beside the end: an end that holds it would be an enum with a payload, which a call
    // is not to copy (docs/DECISIONS.md, Words in code).
    pub until: u64,
}

// Whether there was mail, and the new queued. Kept as two fields: `queued` counts all mailboxes either way, so it is
// no value of the flag.
#[derive(Drop)]
pub struct Mail {
    pub taken: bool,
    pub queued: u64,
}

// What comes next after a reply, by its words, and the new queued.
#[derive(Drop)]
pub struct Stepped<N> {
    pub next: N,
    pub queued: u64,
}

// The end of a kind that has no deadline.
#[tactic(auto, unfolding(crate::specs::Words::step_end_of))]
const fn ended(end: StepEnd) -> StepWords
    ensures end { step_end_of result.end ≡ end }
    ensures until { result.until ≡ 0 }
{
    StepWords {
        end: end as u64,
        until: 0,
    }
}

// The actor ran to its end.
#[tactic(auto, unfolding(crate::specs::Words::step_of))]
pub fn done() -> StepWords
    ensures { step_of result ≡ Step.Done }
{
    ended(StepEnd::Done)
}

// The actor raised.
#[tactic(auto, unfolding(crate::specs::Words::step_of))]
pub fn failed() -> StepWords
    ensures { step_of result ≡ Step.Failed }
{
    ended(StepEnd::Failed)
}

// The actor waits for mail.
#[tactic(auto, unfolding(crate::specs::Words::step_of, crate::specs::Words::parked_of))]
pub fn waiting() -> StepWords
    ensures step { step_of result ≡ Step.Parked Parked.Waiting }
    ensures parked { parked_of result ≡ Parked.Waiting }
{
    ended(StepEnd::Waiting)
}

// The actor waits on a host call, with no deadline.
#[tactic(auto, unfolding(crate::specs::Words::step_of, crate::specs::Words::parked_of))]
pub fn forever() -> StepWords
    ensures step { step_of result ≡ Step.Parked (Parked.Blocked None) }
    ensures parked { parked_of result ≡ Parked.Blocked None }
{
    ended(StepEnd::Forever)
}

// The actor waits on a host call, until a deadline.
#[tactic(auto, unfolding(crate::specs::Words::step_of, crate::specs::Words::parked_of))]
pub fn blocked_until(until: u64) -> StepWords
    ensures step { step_of result ≡ Step.Parked (Parked.Blocked (Some until)) }
    ensures parked { parked_of result ≡ Parked.Blocked (Some until) }
{
    StepWords {
        until,
        ..ended(StepEnd::Until)
    }
}

// The actor handed the thread on.
#[tactic(auto, unfolding(crate::specs::Words::step_of, crate::specs::Words::parked_of))]
pub fn yields() -> StepWords
    ensures step { step_of result ≡ Step.Parked Parked.Yield }
    ensures parked { parked_of result ≡ Parked.Yield }
{
    ended(StepEnd::Yield)
}

// The end of an eval actor's step, as one that goes on.
// Kept: a match that gives words, and no switch on what is to run.
#[tactic(auto, unfolding(crate::specs::Words::step_of, crate::specs::Words::parked_of))]
pub fn going_on(step: StepWords) -> StepWords
    ensures { step_of result ≡ Step.Parked (parked_of step) }
{
    match StepEnd::from(step.end) {
        StepEnd::Done | StepEnd::Failed => yields(),
        _ => step,
    }
}

// Where a message goes that is over: a logged one waits for its mark, any other is done and its entry free.
fn place_logged(id: Option<LogId>) -> usize
    ensures { result ≡ place_logged id }
{
    if id.is_some() {
        lists::OVER
    } else {
        lists::FREE
    }
}

#[tactic(auto, unfolding(crate::specs::Steps::place_over))]
fn place_over(rows: &[MessageRow], found: Option<usize>) -> usize
    ensures { result ≡ place_over rows.now found }
{
    match found {
        Some(e) => place_logged(message::id_at(rows, e)),
        None => lists::FREE,
    }
}

// Who waits for the outcome of a message.
#[tactic(auto, unfolding(crate::specs::Steps::caller_first))]
pub fn caller_first(rows: &[MessageRow], found: Option<usize>) -> Option<CallerId>
    ensures { result ≡ caller_first rows.now found }
{
    match found {
        Some(e) => message::caller_at(rows, e),
        None => None,
    }
}

// The first message of a list is over.
#[tactic(auto, unfolding(crate::specs::Steps::over_first))]
pub fn over_first(links: &mut [LinkRow], rows: &[MessageRow], from: usize)
    ensures { links.new ≡ over_first links.old rows.now from }
{
    let to = place_over(rows, lists::first(links, from));
    lists::move_first(links, from, to);
}

// The actor of a slot is idle.
#[tactic(auto, unfolding(crate::specs::Steps::idled_at))]
pub fn idle_at(actors: &mut [ActorRow], slot: usize)
    ensures { actors.new ≡ idled_at actors.old slot }
{
    state::idled_at(actors, slot);
}

// The first message of the mailbox goes to the step's hand; where there is none the actor is idle.
#[tactic(auto, unfolding(crate::specs::Steps::take_mail))]
pub fn take_mail(links: &mut [LinkRow], actors: &mut [ActorRow], slot: usize, queued: u64) -> Mail
    ensures { record { links = links.new; actors = actors.new; mail = result }
        ≡ take_mail links.old actors.old slot queued }
{
    let mailbox = lists::mailbox(slot);
    if lists::length_of(links, mailbox) == 0 {
        idle_at(actors, slot);
        Mail {
            taken: false,
            queued,
        }
    } else {
        lists::move_first(links, mailbox, lists::HAND);
        Mail {
            taken: true,
            queued: queued.saturating_sub(1),
        }
    }
}
