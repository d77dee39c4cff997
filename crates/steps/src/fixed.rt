// `step_fixed` of the Rust, cut at its questions: Run, and after it Drain, Push or Dispatch, until the step ends.
ghost use Rattle.std.specs.Prelude.{◌≡◌};
ghost use Rattle.steps.specs.StepFixed.{
  fixed_start,
  fixed_failed,
  fixed_ran,
  fixed_drained,
  fixed_pushed,
  fixed_dispatched,
  run_reply,
  drain_reply,
  push_reply,
  dispatch_reply,
  step_fixed,
  fixed_asks,
  fixed_step_of,
};
ghost use Rattle.steps.specs.Words.{step_of, fixed_kind_of, fixed_ask_of, fixed_next_of};
ghost use Rattle.steps.specs.Steps.{step_tables};

use crate::step;
use crate::step::{Mail, Step, StepWords, Stepped};
use actor::message::MessageRow;
use actor::question::{Question, Reply, Status, Who};
use actor::state::ActorRow;
use actor::{question, state};
use lists::LinkRow;

// The question that is open: what `FixedKind` means. The definitions of specs/ speak of it.
#[derive(Drop)]
pub enum FixedAsk {
    // start, or resume
    Run(bool),
    Drain,
    // the message is in the step's hand
    Push,
    Dispatch,
}

// What a reply leads to: the next question, or the step's end. It is what `FixedWords` means, and the definitions of
// specs/ speak of it.
#[derive(Drop)]
pub enum FixedNext {
    Asks(FixedAsk),
    Ended(Step),
}

// The question that is open, without payloads.
#[derive(Clone, Copy, PartialEq, Eq)]
pub enum FixedKind {
    Start = 1,
    Resume,
    Drain,
    Push,
    Dispatch,
}

// The question of a number, as `as u64` tells it; a number of no question is read as `Dispatch`.
// Kept: an arm for each number, as in the `From<u64>` of the other enums: each names its own variants.
impl From<u64> for FixedKind {
    ghost from_gives = { λ n ask. ask ≡ fixed_kind_of n };

    #[tactic(auto, unfolding(crate::specs::Words::fixed_kind_of))]
    fn from(n: u64) -> FixedKind {
        match n {
            1 => FixedKind::Start,
            2 => FixedKind::Resume,
            3 => FixedKind::Drain,
            4 => FixedKind::Push,
            _ => FixedKind::Dispatch,
        }
    }
}

// The next question, or, once the step ended, its end, as words. Kept as two fields: as a `Result` it would be an enum
// with payloads, which a call is not to copy (docs/DECISIONS.md, Words in code).
#[derive(Clone, Copy)]
pub struct FixedWords {
    // none: the step ended
    pub ask: Option<FixedKind>,
    pub step: StepWords,
}

// A question is next.
#[tactic(auto, unfolding(crate::specs::Words::fixed_next_of))]
fn asks(ask: FixedKind) -> FixedWords
    ensures { fixed_next_of result ≡ FixedNext.Asks (fixed_ask_of ask) }
{
    FixedWords {
        ask: Some(ask),
        step: step::done(),
    }
}

// Run, to start or to resume.
fn run(start: bool) -> FixedKind
    ensures { fixed_ask_of result ≡ FixedAsk.Run start }
{
    if start {
        FixedKind::Start
    } else {
        FixedKind::Resume
    }
}

// The step ended.
#[tactic(auto, unfolding(crate::specs::Words::fixed_next_of, crate::specs::Words::step_of))]
fn ends(step: StepWords) -> FixedWords
    ensures { fixed_next_of result ≡ FixedNext.Ended (step_of step) }
{
    FixedWords { ask: None, step }
}

// A step begins: the program is started the first time, and else resumed. This question is
// open.
#[tactic(auto, unfolding(crate::specs::StepFixed::fixed_start))]
pub fn fixed_start(actors: &mut [ActorRow], slot: usize) -> FixedKind
    ensures { record { actors = actors.new; ask = fixed_ask_of result }
        ≡ fixed_start actors.old slot }
{
    let before = state::is_started(actors, slot);
    state::started_at(actors, slot);
    run(!before)
}

// Kept, here and below: each function takes the tables that it changes, and not a struct of all of them as in `eval`.
// Four take `links`, `actors`, a slot and `queued`, and three `links` and a slot alone; of a struct of all, each would
// have to say besides that it leaves the others as they were.

// It raised: the message that it was at goes to the step's hand.
#[tactic(auto, unfolding(crate::specs::Words::fixed_next_of, crate::specs::StepFixed::fixed_failed))]
fn fixed_failed(links: &mut [LinkRow], slot: usize) -> FixedWords
    ensures { record { links = links.new; next = fixed_next_of result } ≡ fixed_failed links.old slot }
{
    let hand = lists::hand(slot);
    lists::move_first(links, hand, lists::HAND);
    ends(step::failed())
}

// Run came back. Back in receive() or at its end, the message that it had is over.
// Kept: a switch on the status, which comes from the host as a number, where no closure can come.
#[tactic(auto, unfolding(crate::specs::Words::fixed_next_of, crate::specs::StepFixed::fixed_ran))]
fn fixed_ran(links: &mut [LinkRow], rows: &[MessageRow], slot: usize, status: Status) -> FixedWords
    ensures { record { links = links.new; next = fixed_next_of result }
        ≡ fixed_ran links.old rows.now slot status }
{
    let hand = lists::hand(slot);
    match status {
        Status::Done | Status::Exit => {
            step::over_first(links, rows, hand);
            ends(step::done())
        }
        Status::Preempted => ends(step::yields()),
        Status::Event => {
            step::over_first(links, rows, hand);
            asks(FixedKind::Drain)
        }
        Status::HostCall => asks(FixedKind::Dispatch),
        Status::Error | Status::Broke => fixed_failed(links, slot),
    }
}

// Drain told its count: an event that came mid-step goes before the mailbox.
#[tactic(auto, unfolding(crate::specs::StepFixed::fixed_drained))]
fn fixed_drained(
    links: &mut [LinkRow],
    actors: &mut [ActorRow],
    slot: usize,
    queued: u64,
    count: u64,
) -> Stepped<FixedWords>
    ensures { record { links = links.new; actors = actors.new; step = fixed_step_of result }
        ≡ fixed_drained links.old actors.old slot queued count }
{
    if 0 < count {
        return Stepped {
            next: asks(FixedKind::Resume),
            queued,
        };
    }
    let Mail { taken, queued } = step::take_mail(links, actors, slot, queued);
    let next = if taken {
        asks(FixedKind::Push)
    } else {
        ends(step::waiting())
    };
    Stepped { next, queued }
}

// Push was answered: the message is in the actor's hands, or back at the front of its mailbox.
#[tactic(auto, unfolding(crate::specs::StepFixed::fixed_pushed, lists::specs::Links::capped))]
fn fixed_pushed(
    links: &mut [LinkRow],
    actors: &mut [ActorRow],
    slot: usize,
    queued: u64,
    taken: bool,
) -> Stepped<FixedWords>
    ensures { record { links = links.new; actors = actors.new; step = fixed_step_of result }
        ≡ fixed_pushed links.old actors.old slot queued taken }
{
    if taken {
        state::consumed_at(actors, slot);
        let hand = lists::hand(slot);
        lists::move_first(links, lists::HAND, hand);
        Stepped {
            next: asks(FixedKind::Resume),
            queued,
        }
    } else {
        let mailbox = lists::mailbox(slot);
        lists::move_first_to_front(links, lists::HAND, mailbox);
        step::idle_at(actors, slot);
        Stepped {
            next: ends(step::waiting()),
            queued: queued.saturating_add(1),
        }
    }
}

// Dispatch told how many host calls are in flight: it waits for them, and with none it is stuck.
#[tactic(auto, unfolding(crate::specs::Words::fixed_next_of, crate::specs::StepFixed::fixed_dispatched))]
fn fixed_dispatched(links: &mut [LinkRow], slot: usize, count: u64) -> FixedWords
    ensures { record { links = links.new; next = fixed_next_of result }
        ≡ fixed_dispatched links.old slot count }
{
    if 0 < count {
        ends(step::forever())
    } else {
        fixed_failed(links, slot)
    }
}

// The reply to Run; one that does not fit changes nothing.
#[tactic(auto, unfolding(crate::specs::Words::fixed_next_of, crate::specs::StepFixed::run_reply))]
fn run_reply(
    links: &mut [LinkRow],
    rows: &[MessageRow],
    slot: usize,
    start: bool,
    reply: Reply,
) -> FixedWords
    ensures { record { links = links.new; next = fixed_next_of result }
        ≡ run_reply links.old rows.now slot start reply }
{
    match question::ran_in(reply) {
        Some(status) => fixed_ran(links, rows, slot, status),
        None => asks(run(start)),
    }
}

// The reply to Drain; one that does not fit changes nothing.
// Kept: one function for each reply, as in `eval`: each reads its own kind of reply, and has its own definition.
#[tactic(auto, unfolding(crate::specs::StepFixed::drain_reply))]
fn drain_reply(
    links: &mut [LinkRow],
    actors: &mut [ActorRow],
    slot: usize,
    queued: u64,
    reply: Reply,
) -> Stepped<FixedWords>
    ensures { record { links = links.new; actors = actors.new; step = fixed_step_of result }
        ≡ drain_reply links.old actors.old slot queued reply }
{
    match question::count_in(reply) {
        Some(n) => fixed_drained(links, actors, slot, queued, n),
        None => Stepped {
            next: asks(FixedKind::Drain),
            queued,
        },
    }
}

// The reply to Push; one that does not fit changes nothing.
#[tactic(auto, unfolding(crate::specs::StepFixed::push_reply))]
fn push_reply(
    links: &mut [LinkRow],
    actors: &mut [ActorRow],
    slot: usize,
    queued: u64,
    reply: Reply,
) -> Stepped<FixedWords>
    ensures { record { links = links.new; actors = actors.new; step = fixed_step_of result }
        ≡ push_reply links.old actors.old slot queued reply }
{
    match question::yes_in(reply) {
        Some(taken) => fixed_pushed(links, actors, slot, queued, taken),
        None => Stepped {
            next: asks(FixedKind::Push),
            queued,
        },
    }
}

// The reply to Dispatch; one that does not fit changes nothing.
#[tactic(auto, unfolding(crate::specs::Words::fixed_next_of, crate::specs::StepFixed::dispatch_reply))]
fn dispatch_reply(links: &mut [LinkRow], slot: usize, reply: Reply) -> FixedWords
    ensures { record { links = links.new; next = fixed_next_of result }
        ≡ dispatch_reply links.old slot reply }
{
    match question::count_in(reply) {
        Some(n) => fixed_dispatched(links, slot, n),
        None => asks(FixedKind::Dispatch),
    }
}

// From the open question and its reply to the next question, or the step's end. Kept as a switch on the question:
// between two calls it lies in the pool's cells, as a number, where no closure can lie.
#[tactic(auto, unfolding(crate::specs::StepFixed::step_fixed))]
pub fn step_fixed(
    links: &mut [LinkRow],
    rows: &[MessageRow],
    actors: &mut [ActorRow],
    slot: usize,
    queued: u64,
    ask: FixedKind,
    reply: Reply,
) -> Stepped<FixedWords>
    ensures { record { links = links.new; actors = actors.new; step = fixed_step_of result }
        ≡ step_fixed (step_tables links.old rows.now actors.old) slot queued
        (fixed_ask_of ask) reply }
{
    match ask {
        FixedKind::Start => Stepped {
            next: run_reply(links, rows, slot, true, reply),
            queued,
        },
        FixedKind::Resume => Stepped {
            next: run_reply(links, rows, slot, false, reply),
            queued,
        },
        FixedKind::Drain => drain_reply(links, actors, slot, queued, reply),
        FixedKind::Push => push_reply(links, actors, slot, queued, reply),
        FixedKind::Dispatch => Stepped {
            next: dispatch_reply(links, slot, reply),
            queued,
        },
    }
}

// Run of a fixed actor shows no message.
fn ask_run(who: Who, start: bool) -> Option<Question>
    ensures { result ≡ Some (Question.Run who start None) }
{
    Some(Question::Run {
        who,
        start,
        message: None,
    })
}

// The question that is open, as it is shown.
// Kept: a switch on the question, as in `step_fixed`.
#[tactic(auto, unfolding(crate::specs::StepFixed::fixed_asks))]
pub fn fixed_asks(links: &[LinkRow], who: Who, ask: FixedKind) -> Option<Question>
    ensures { result ≡ fixed_asks links.now who (fixed_ask_of ask) }
{
    match ask {
        FixedKind::Start => ask_run(who, true),
        FixedKind::Resume => ask_run(who, false),
        FixedKind::Drain => Some(Question::Drain(who)),
        FixedKind::Push => {
            let message = lists::first(links, lists::HAND);
            Some(Question::Push { who, message })
        }
        FixedKind::Dispatch => Some(Question::Dispatch(who)),
    }
}
