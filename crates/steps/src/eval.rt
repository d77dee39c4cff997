// `step_eval` of the Rust, cut at its questions: Clock for a run that waits, else Boot and Clock for the next
// message; then Run, Dispatch, Tell.
ghost use Rattle.std.specs.Prelude.{◌≡◌};
ghost use Rattle.steps.specs.StepEval.{
  deadline_from,
  eval_start,
  eval_over,
  eval_tell,
  eval_finish,
  eval_clocked,
  eval_booted,
  eval_started,
  eval_ran,
  eval_dispatched,
  eval_clock_reply,
  boot_reply,
  start_reply,
  eval_run_reply,
  eval_dispatch_reply,
  tell_reply,
  step_eval,
  eval_shown,
  ask_tell,
  eval_asks,
  eval_step_of,
  eval_tables,
  stepped_in,
  EvalKept,
};
ghost use Rattle.steps.specs.Words.{parked_of, eval_kind_of};
ghost use Rattle.steps.specs.Words.{eval_ask_of, eval_next_of};
ghost use Rattle.steps.specs.Steps.{step_tables};

use crate::step;
use crate::step::{Mail, Parked, StepWords, Stepped};
use actor::message::{CallerId, MessageRow};
use actor::question::{Outcome, Question, Reply, Status, Who};
use actor::state::ActorRow;
use actor::{question, state};
use lists::LinkRow;

// The question that is open: what `EvalKind` and the outcome beside it mean. The definitions of specs/ speak of it.
#[derive(Drop)]
pub enum EvalAsk {
    // of a run that waited
    Clock,
    // the next message is in the step's hand
    Boot,
    // its interpreter is booted
    StartClock,
    // start, or resume
    Run(bool),
    Dispatch,
    // the message is in the step's hand, and the run is gone
    Tell(Outcome),
}

// What a reply leads to: the next question, or the step's end. It is what `EvalWords` means, and the definitions of
// specs/ speak of it.
#[derive(Drop)]
pub enum EvalNext {
    Asks(EvalAsk),
    Ended(Parked),
}

// The question that is open, without payloads.
#[derive(Clone, Copy, PartialEq, Eq)]
pub enum EvalKind {
    Clock = 1,
    Boot,
    StartClock,
    Start,
    Resume,
    Dispatch,
    Tell,
}

// The question of a number, as `as u64` tells it; a number of no question is read as `Tell`.
// Kept: an arm for each number, as in the `From<u64>` of the other enums: each names its own variants.
impl From<u64> for EvalKind {
    ghost from_gives = { λ n ask. ask ≡ eval_kind_of n };

    #[tactic(auto, unfolding(crate::specs::Words::eval_kind_of))]
    fn from(n: u64) -> EvalKind {
        match n {
            1 => EvalKind::Clock,
            2 => EvalKind::Boot,
            3 => EvalKind::StartClock,
            4 => EvalKind::Start,
            5 => EvalKind::Resume,
            6 => EvalKind::Dispatch,
            _ => EvalKind::Tell,
        }
    }
}

// The next question, with what Tell tells, or, once the step ended, its end, as words. Kept as three fields: as a
// `Result` it would be an enum with payloads, which a call is not to copy (docs/DECISIONS.md, Words in code).
#[derive(Clone, Copy)]
pub struct EvalWords {
    // none: the step ended
    pub ask: Option<EvalKind>,
    // of Tell
    pub outcome: Outcome,
    pub step: StepWords,
}

// A question is next.
#[tactic(auto, unfolding(crate::specs::Words::eval_next_of))]
fn asks(ask: EvalKind, outcome: Outcome) -> EvalWords
    ensures { eval_next_of result ≡ EvalNext.Asks (eval_ask_of ask outcome) }
{
    EvalWords {
        ask: Some(ask),
        outcome,
        step: step::done(),
    }
}

// A question other than Tell is next.
#[tactic(auto, unfolding(crate::specs::Words::eval_next_of))]
fn asks_for(ask: EvalKind) -> EvalWords
    ensures { eval_next_of result ≡ EvalNext.Asks (eval_ask_of ask Outcome.Ran) }
{
    asks(ask, Outcome::Ran)
}

// Run is next.
#[tactic(auto, unfolding(crate::specs::Words::eval_next_of))]
fn asks_run(start: bool) -> EvalWords
    ensures { eval_next_of result ≡ EvalNext.Asks (EvalAsk.Run start) }
{
    asks_for(if start {
        EvalKind::Start
    } else {
        EvalKind::Resume
    })
}

// The step ended, and the actor goes on.
#[tactic(auto, unfolding(crate::specs::Words::eval_next_of, crate::specs::Words::parked_of))]
fn ends(step: StepWords) -> EvalWords
    ensures { eval_next_of result ≡ EvalNext.Ended (parked_of step) }
{
    EvalWords {
        ask: None,
        outcome: Outcome::Ran,
        step,
    }
}

// What bounds a run: the group's timeout in seconds, and the nanoseconds of a tick.
#[derive(Drop)]
pub struct Limit {
    pub timeout: u64,
    pub tick: u64,
}

// The clock, and the timeout in whole ticks. Nothing wraps: a timeout past a day gives no time, and the sum is held
// at the largest number.
#[tactic(auto, using(crate::proofs::Times::no_tick), unfolding(crate::specs::StepEval::deadline_from, lists::specs::Links::capped))]
fn deadline(clock: u64, limit: Limit) -> u64
    ensures { result ≡ deadline_from clock limit }
{
    if 86400 < limit.timeout || limit.tick == 0 {
        return clock;
    }
    clock.saturating_add(limit.timeout * 1000000000 / limit.tick * limit.tick)
}

// What a reply is carried out on: the lists of messages, their rows, the actors, and the slot of the step's actor.
#[derive(Drop)]
struct Tables<'a> {
    links: &'a mut [LinkRow],
    rows: &'a [MessageRow],
    actors: &'a mut [ActorRow],
    slot: usize,
}

// A step begins: a run that waited asks the clock, else the next message is booted.
#[tactic(auto, unfolding(crate::specs::StepEval::eval_start))]
pub fn eval_start(
    links: &mut [LinkRow],
    actors: &mut [ActorRow],
    slot: usize,
    queued: u64,
) -> Stepped<EvalWords>
    ensures { record { links = links.new; actors = actors.new; step = eval_step_of result }
        ≡ eval_start links.old actors.old slot queued }
{
    if state::has_run(actors, slot) {
        return Stepped {
            next: asks_for(EvalKind::Clock),
            queued,
        };
    }
    let Mail { taken, queued } = step::take_mail(links, actors, slot, queued);
    let next = if taken {
        asks_for(EvalKind::Boot)
    } else {
        ends(step::waiting())
    };
    Stepped { next, queued }
}

// The message in the step's hand is over; the next one starts on a later step.
#[tactic(auto, unfolding(crate::specs::Words::eval_next_of, crate::specs::StepEval::eval_over))]
fn eval_over(t: &mut Tables) -> EvalWords
    ensures kept { EvalKept t.old t.new }
    ensures stepped { stepped_in t.new result ≡ eval_over (eval_tables t.old) t.old.slot }
{
    let mailbox = lists::mailbox(t.slot);
    step::over_first(t.links, t.rows, lists::HAND);
    let links = &mut *t.links;
    if lists::length_of(links, mailbox) == 0 {
        step::idle_at(t.actors, t.slot);
        ends(step::waiting())
    } else {
        ends(step::yields())
    }
}

// The caller, where there is one, is told; else the message is over.
// Kept: a match on an `Option`, which no closure makes shorter.
#[tactic(auto, unfolding(crate::specs::Words::eval_next_of, crate::specs::StepEval::eval_tell))]
fn eval_tell(t: &mut Tables, outcome: Outcome) -> EvalWords
    ensures kept { EvalKept t.old t.new }
    ensures stepped { stepped_in t.new result ≡ eval_tell (eval_tables t.old) t.old.slot outcome }
{
    let links = &mut *t.links;
    match step::caller_first(t.rows, lists::first(links, lists::HAND)) {
        Some(_) => asks(EvalKind::Tell, outcome),
        None => eval_over(t),
    }
}

// The run ends: its message goes to the step's hand.
#[tactic(auto, unfolding(crate::specs::Words::eval_next_of, crate::specs::StepEval::eval_finish))]
fn eval_finish(t: &mut Tables, outcome: Outcome) -> EvalWords
    ensures kept { EvalKept t.old t.new }
    ensures stepped { stepped_in t.new result ≡ eval_finish (eval_tables t.old) t.old.slot outcome }
{
    state::running_at(t.actors, t.slot, None);
    lists::move_first(t.links, lists::hand(t.slot), lists::HAND);
    eval_tell(t, outcome)
}

// The clock of a run that waited: at its deadline it ends, whatever it waited on, and before it is resumed.
#[tactic(auto, unfolding(crate::specs::Words::eval_next_of, crate::specs::StepEval::eval_clocked))]
fn eval_clocked(t: &mut Tables, clock: u64) -> EvalWords
    ensures kept { EvalKept t.old t.new }
    ensures stepped { stepped_in t.new result ≡ eval_clocked (eval_tables t.old) t.old.slot clock }
{
    let slot = t.slot;
    let actors = &mut *t.actors;
    let until = state::deadline_of(actors, slot);
    if until <= clock {
        eval_finish(t, Outcome::Late)
    } else {
        asks_for(EvalKind::Resume)
    }
}

// Boot was answered.
#[tactic(auto, unfolding(crate::specs::Words::eval_next_of, crate::specs::StepEval::eval_booted))]
fn eval_booted(t: &mut Tables, booted: bool) -> EvalWords
    ensures kept { EvalKept t.old t.new }
    ensures stepped { stepped_in t.new result ≡ eval_booted (eval_tables t.old) t.old.slot booted }
{
    if booted {
        asks_for(EvalKind::StartClock)
    } else {
        eval_tell(t, Outcome::Unbooted)
    }
}

// The clock of a start: the run has its deadline, and its message is in the actor's hands.
#[tactic(auto, unfolding(crate::specs::Words::eval_next_of, crate::specs::StepEval::eval_started))]
fn eval_started(t: &mut Tables, limit: Limit, clock: u64) -> EvalWords
    ensures kept { EvalKept t.old t.new }
    ensures stepped { stepped_in t.new result ≡ eval_started t.old.links.now t.old.actors.now t.old.slot limit clock }
{
    state::running_at(t.actors, t.slot, Some(deadline(clock, limit)));
    lists::move_first(t.links, lists::HAND, lists::hand(t.slot));
    asks_for(EvalKind::Start)
}

// Run came back.
// Kept: a switch on the status, which comes from the host as a number, where no closure can come.
#[tactic(auto, unfolding(crate::specs::Words::eval_next_of, crate::specs::StepEval::eval_ran))]
fn eval_ran(t: &mut Tables, status: Status) -> EvalWords
    ensures kept { EvalKept t.old t.new }
    ensures stepped { stepped_in t.new result ≡ eval_ran (eval_tables t.old) t.old.slot status }
{
    match status {
        Status::Done | Status::Exit => eval_finish(t, Outcome::Ran),
        Status::Preempted => ends(step::yields()),
        Status::Event => eval_finish(t, Outcome::StuckReceive),
        Status::HostCall => asks_for(EvalKind::Dispatch),
        Status::Error => eval_finish(t, Outcome::Raised),
        Status::Broke => eval_finish(t, Outcome::Broke),
    }
}

// Dispatch told how many host calls are in flight: the run waits for them until its deadline, and with none it is
// stuck.
#[tactic(auto, unfolding(crate::specs::Words::eval_next_of, crate::specs::StepEval::eval_dispatched))]
fn eval_dispatched(t: &mut Tables, count: u64) -> EvalWords
    ensures kept { EvalKept t.old t.new }
    ensures stepped { stepped_in t.new result ≡ eval_dispatched (eval_tables t.old) t.old.slot count }
{
    let slot = t.slot;
    if 0 < count {
        let actors = &mut *t.actors;
        ends(step::blocked_until(state::deadline_of(actors, slot)))
    } else {
        eval_finish(t, Outcome::StuckHostCall)
    }
}

// The reply to Clock; one that does not fit changes nothing.
// Kept, here and below: one function for each reply. Each has its own definition in specs/, and one function of them
// all would take what reads the reply, what follows and what is asked again as closures, with bounds that say the
// same.
#[tactic(auto, unfolding(crate::specs::Words::eval_next_of, crate::specs::StepEval::eval_clock_reply))]
fn clock_reply(t: &mut Tables, reply: Reply) -> EvalWords
    ensures kept { EvalKept t.old t.new }
    ensures stepped { stepped_in t.new result ≡ eval_clock_reply (eval_tables t.old) t.old.slot reply }
{
    match question::clock_in(reply) {
        Some(ns) => eval_clocked(t, ns),
        None => asks_for(EvalKind::Clock),
    }
}

// The reply to Boot; one that does not fit changes nothing.
#[tactic(auto, unfolding(crate::specs::Words::eval_next_of, crate::specs::StepEval::boot_reply))]
fn boot_reply(t: &mut Tables, reply: Reply) -> EvalWords
    ensures kept { EvalKept t.old t.new }
    ensures stepped { stepped_in t.new result ≡ boot_reply (eval_tables t.old) t.old.slot reply }
{
    match question::yes_in(reply) {
        Some(booted) => eval_booted(t, booted),
        None => asks_for(EvalKind::Boot),
    }
}

// The reply to Clock of a start; one that does not fit changes nothing.
#[tactic(auto, unfolding(crate::specs::Words::eval_next_of, crate::specs::StepEval::start_reply))]
fn start_reply(t: &mut Tables, limit: Limit, reply: Reply) -> EvalWords
    ensures kept { EvalKept t.old t.new }
    ensures stepped { stepped_in t.new result ≡ start_reply t.old.links.now t.old.actors.now t.old.slot limit reply }
{
    match question::clock_in(reply) {
        Some(ns) => eval_started(t, limit, ns),
        None => asks_for(EvalKind::StartClock),
    }
}

// The reply to Run; one that does not fit changes nothing.
#[tactic(auto, unfolding(crate::specs::Words::eval_next_of, crate::specs::StepEval::eval_run_reply))]
fn run_reply(t: &mut Tables, start: bool, reply: Reply) -> EvalWords
    ensures kept { EvalKept t.old t.new }
    ensures stepped { stepped_in t.new result ≡ eval_run_reply (eval_tables t.old) t.old.slot start reply }
{
    match question::ran_in(reply) {
        Some(status) => eval_ran(t, status),
        None => asks_run(start),
    }
}

// The reply to Dispatch; one that does not fit changes nothing.
#[tactic(auto, unfolding(crate::specs::Words::eval_next_of, crate::specs::StepEval::eval_dispatch_reply))]
fn dispatch_reply(t: &mut Tables, reply: Reply) -> EvalWords
    ensures kept { EvalKept t.old t.new }
    ensures stepped { stepped_in t.new result ≡ eval_dispatch_reply (eval_tables t.old) t.old.slot reply }
{
    match question::count_in(reply) {
        Some(n) => eval_dispatched(t, n),
        None => asks_for(EvalKind::Dispatch),
    }
}

// The reply to Tell; one that does not fit changes nothing.
#[tactic(auto, unfolding(crate::specs::Words::eval_next_of, crate::specs::StepEval::tell_reply))]
fn tell_reply(t: &mut Tables, outcome: Outcome, reply: Reply) -> EvalWords
    ensures kept { EvalKept t.old t.new }
    ensures stepped { stepped_in t.new result ≡ tell_reply (eval_tables t.old) t.old.slot outcome reply }
{
    if question::is_told(reply) {
        eval_over(t)
    } else {
        asks(EvalKind::Tell, outcome)
    }
}

// From the open question and its reply to the next question, or the step's end. Kept as a switch on the question, as
// `fixed::step_fixed` is; and the tables as parameters, since each is lent by itself.
#[tactic(auto, unfolding(crate::specs::Words::eval_next_of, crate::specs::StepEval::step_eval))]
pub fn step_eval(
    links: &mut [LinkRow],
    rows: &[MessageRow],
    actors: &mut [ActorRow],
    slot: usize,
    limit: Limit,
    ask: EvalKind,
    outcome: Outcome,
    reply: Reply,
) -> EvalWords
    ensures { record { links = links.new; actors = actors.new; next = eval_next_of result }
        ≡ step_eval (step_tables links.old rows.now actors.old) slot limit
        (eval_ask_of ask outcome) reply }
{
    let t = &mut Tables {
        links,
        rows,
        actors,
        slot,
    };
    match ask {
        EvalKind::Clock => clock_reply(t, reply),
        EvalKind::Boot => boot_reply(t, reply),
        EvalKind::StartClock => start_reply(t, limit, reply),
        EvalKind::Start => run_reply(t, true, reply),
        EvalKind::Resume => run_reply(t, false, reply),
        EvalKind::Dispatch => dispatch_reply(t, reply),
        EvalKind::Tell => tell_reply(t, outcome, reply),
    }
}

// The message that Run shows: that of a start, which is the program.
#[tactic(auto, unfolding(crate::specs::StepEval::eval_shown))]
fn eval_shown(links: &[LinkRow], who: Who, start: bool) -> Option<usize>
    ensures { result ≡ eval_shown links.now who start }
{
    if start {
        lists::first(links, lists::hand(question::slot_of(who)))
    } else {
        None
    }
}

// Run, with that message.
#[tactic(auto, unfolding(crate::specs::StepEval::eval_shown))]
fn ask_run(links: &[LinkRow], who: Who, start: bool) -> Option<Question>
    ensures { result ≡ Some (Question.Run who start (eval_shown links.now who start)) }
{
    let message = eval_shown(links, who, start);
    Some(Question::Run {
        who,
        start,
        message,
    })
}

// Tell, to the caller of the message in the step's hand.
fn ask_tell(caller: Option<CallerId>, outcome: Outcome) -> Option<Question>
    ensures { result ≡ ask_tell caller outcome }
{
    match caller {
        Some(id) => Some(Question::Tell(id, outcome)),
        None => None,
    }
}

// The question that is open, as it is shown.
// Kept: a switch on the question, as in `step_eval`.
#[tactic(auto, unfolding(crate::specs::StepEval::eval_asks))]
pub fn eval_asks(
    links: &[LinkRow],
    rows: &[MessageRow],
    who: Who,
    ask: EvalKind,
    outcome: Outcome,
) -> Option<Question>
    ensures { result ≡ eval_asks links.now rows.now who (eval_ask_of ask outcome) }
{
    match ask {
        EvalKind::Clock | EvalKind::StartClock => Some(Question::Clock),
        EvalKind::Boot => Some(Question::Boot(who.group)),
        EvalKind::Start => ask_run(links, who, true),
        EvalKind::Resume => ask_run(links, who, false),
        EvalKind::Dispatch => Some(Question::Dispatch(who)),
        EvalKind::Tell => ask_tell(
            step::caller_first(rows, lists::first(links, lists::HAND)),
            outcome,
        ),
    }
}
