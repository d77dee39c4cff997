// What is open: the order that waits, else the turn's question. It is a function of the state, so an older question
// is shown again once an order is stored.
ghost use Rattle.std.specs.Prelude.{◌≡◌};
ghost use Rattle.lists.specs.Links.{Table};
ghost use Rattle.steps.specs.StepFixed.{fixed_asks};
ghost use Rattle.steps.specs.StepEval.{ask_tell, eval_asks};
ghost use Rattle.steps.specs.Words.{fixed_ask_of, eval_ask_of};
ghost use Rattle.points.specs.Words.{ask_of, at_of};
ghost use Rattle.turn.specs.Words.{disk_of};
ghost use Rattle.turn.specs.Asks.{asked_by, asked_in, wanted_by};

use crate::state;
use crate::state::{DiskKind, DiskWords};
use actor::message::{CallerId, MessageRow};
use actor::question::{Outcome, Question, Who};
use lists::LinkRow;
use points::words::{Place, Where};
use points::{at, words};
use steps::eval::EvalKind;
use steps::fixed::FixedKind;
use steps::{eval, fixed, step};

// The turn's question.
#[tactic(auto, unfolding(crate::specs::Asks::asked_by))]
fn asked_by(w: Where, links: &[LinkRow], rows: &[MessageRow]) -> Option<Question>
    ensures { result ≡ asked_by (ask_of w) links.now rows.now }
{
    let who = at::who_of(w.group, words::key_of(w.key));
    match Place::from(w.place) {
        Place::SeedBoot | Place::RouteBoot => Some(Question::Boot(w.group)),
        Place::TickClock => Some(Question::Clock),
        Place::WakePoll => Some(Question::Poll(who)),
        Place::Fixed => fixed::fixed_asks(links, who, FixedKind::from(w.step)),
        Place::Eval => {
            let outcome = Outcome::from(w.more);
            eval::eval_asks(links, rows, who, EvalKind::from(w.step), outcome)
        }
        Place::Sends => Some(Question::Sends(who)),
        Place::Trap => Some(Question::Trap(w.group)),
        // `Trapped`, and what is no question is read as it
        _ => Some(Question::Trapped(at::who_of(w.group, words::key_of(w.more)))),
    }
}

// The order that waits, else the turn's question; after a failed order nothing.
#[tactic(auto, unfolding(crate::specs::Asks::asked_in, crate::specs::Words::disk_of, points::specs::Words::at_of))]
pub fn asked_in(
    disk: DiskWords,
    at: Where,
    links: &[LinkRow],
    rows: &[MessageRow],
) -> Option<Question>
    ensures { result ≡ asked_in (disk_of disk) (at_of at) links.now rows.now }
{
    match DiskKind::from(disk.disk) {
        DiskKind::Free if Place::from(at.place).asks() => asked_by(at, links, rows),
        DiskKind::Free | DiskKind::Failed => None,
        _ => Some(Question::Store(state::order_in(disk))),
    }
}

// The kinds of reply: yes or no, a clock, a count, a status, a message or the end, told, stored or failed.
// Kept: numbers, since the definitions `kind_of` and `wanted_by` number the kinds (actor::question says more).
const YES_OR_NO: u64 = 1;

const CLOCK: u64 = 2;

const COUNT: u64 = 3;

const STATUS: u64 = 4;

const SENT: u64 = 5;

const TOLD: u64 = 6;

const STORED: u64 = 7;

// Nothing is open: the kind of no reply.
const NO_REPLY: u64 = 8;

// The kind of reply that a question of a fixed actor's step wants.
// Kept, here and below: no `From`, as a kind of reply is not what a question means; and a switch on the question,
// since it lies in the pool's cells, as a number, where no closure can lie.
fn fixed_wants(ask: FixedKind) -> u64
    ensures { (links : Table) (who : Who) → result ≡ wanted_by (fixed_asks links who (fixed_ask_of ask)) }
{
    match ask {
        FixedKind::Start => STATUS,
        FixedKind::Resume => STATUS,
        FixedKind::Drain => COUNT,
        FixedKind::Push => YES_OR_NO,
        FixedKind::Dispatch => COUNT,
    }
}

// Tell is asked where the message has a caller.
fn tell_wants(caller: Option<CallerId>) -> u64
    ensures { (o : Outcome) → result ≡ wanted_by (ask_tell caller o) }
{
    match caller {
        Some(_) => TOLD,
        None => NO_REPLY,
    }
}

// The same of an eval actor's step.
fn eval_wants(ask: EvalKind, links: &[LinkRow], rows: &[MessageRow]) -> u64
    ensures { (who : Who) (o : Outcome) →
        result ≡ wanted_by (eval_asks links.now rows.now who (eval_ask_of ask o)) }
{
    match ask {
        EvalKind::Clock => CLOCK,
        EvalKind::Boot => YES_OR_NO,
        EvalKind::StartClock => CLOCK,
        EvalKind::Start => STATUS,
        EvalKind::Resume => STATUS,
        EvalKind::Dispatch => COUNT,
        EvalKind::Tell => {
            let found = lists::first(links, lists::HAND);
            let caller = step::caller_first(rows, found);
            tell_wants(caller)
        }
    }
}

// The kind of reply that the turn's question wants.
#[tactic(auto, unfolding(crate::specs::Asks::asked_by, crate::specs::Asks::wanted_by))]
fn wanted_by(w: Where, links: &[LinkRow], rows: &[MessageRow]) -> u64
    ensures { result ≡ wanted_by (asked_by (ask_of w) links.now rows.now) }
{
    match Place::from(w.place) {
        Place::TickClock => CLOCK,
        Place::WakePoll => COUNT,
        Place::Fixed => fixed_wants(FixedKind::from(w.step)),
        Place::Eval => eval_wants(EvalKind::from(w.step), links, rows),
        Place::Sends => SENT,
        // `SeedBoot`, `RouteBoot`, `Trap` and `Trapped`; what is no question is read as `Trapped`
        _ => YES_OR_NO,
    }
}

// The kind of reply that is wanted: the order's, else the turn's.
#[tactic(auto, unfolding(crate::specs::Asks::asked_in, crate::specs::Asks::wanted_by, crate::specs::Words::disk_of, points::specs::Words::at_of))]
pub fn wanted_in(disk: DiskWords, at: Where, links: &[LinkRow], rows: &[MessageRow]) -> u64
    ensures { result ≡ wanted_by (asked_in (disk_of disk) (at_of at) links.now rows.now) }
{
    match DiskKind::from(disk.disk) {
        DiskKind::Free if Place::from(at.place).asks() => wanted_by(at, links, rows),
        DiskKind::Free | DiskKind::Failed => NO_REPLY,
        _ => STORED,
    }
}
