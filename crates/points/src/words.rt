// Where a turn stands, as words: handing it on copies a few words without payloads and nothing else. What the words
// mean is `At` (specs/Words); each maker here makes the words of one place.
ghost use Rattle.std.specs.Prelude.{◌≡◌};
ghost use Rattle.actor.specs.Questions.{outcome_of};
ghost use Rattle.steps.specs.Words.{parked_of, step_of, fixed_kind_of, fixed_ask_of, eval_kind_of, eval_ask_of};
ghost use Rattle.points.specs.Words.{key_of, cursor_of, end_of, place_of, place_asks, place_runs, at_of};

use crate::at::{Ask, At, Cursor, Point};
use steps::step::{End, StepWords};

// The places: no turn, the points, the questions. The end of a step is one of two, by the actor's mode.
#[derive(Clone, Copy, PartialEq, Eq)]
pub enum Place {
    Rest,
    Seed,
    Intake,
    Route,
    Wake,
    WakeNext,
    Ready,
    FixedEnd,
    EvalEnd,
    Settle,
    Crash,
    AskTrap,
    CrashTrapped,
    SeedBoot,
    RouteBoot,
    TickClock,
    WakePoll,
    Fixed,
    Eval,
    Sends,
    Trap,
    Trapped,
}

// The place of a number, as `as u64` tells it; a number of no place is read as `Trapped`.
impl From<u64> for Place {
    ghost from_gives = { λ n place. place ≡ place_of n };

    #[tactic(auto, unfolding(crate::specs::Words::place_of))]
    fn from(n: u64) -> Place {
        match n {
            0 => Place::Rest,
            1 => Place::Seed,
            2 => Place::Intake,
            3 => Place::Route,
            4 => Place::Wake,
            5 => Place::WakeNext,
            6 => Place::Ready,
            7 => Place::FixedEnd,
            8 => Place::EvalEnd,
            9 => Place::Settle,
            10 => Place::Crash,
            11 => Place::AskTrap,
            12 => Place::CrashTrapped,
            13 => Place::SeedBoot,
            14 => Place::RouteBoot,
            15 => Place::TickClock,
            16 => Place::WakePoll,
            17 => Place::Fixed,
            18 => Place::Eval,
            19 => Place::Sends,
            20 => Place::Trap,
            _ => Place::Trapped,
        }
    }
}

// The number of a place.
impl From<Place> for u64 {
    ghost from_gives = { λ place n. place_of n ≡ place };

    #[tactic(auto, unfolding(crate::specs::Words::place_of))]
    fn from(place: Place) -> u64 {
        place as u64
    }
}

impl Place {
    // Whether a question is open there.
    pub fn asks(self) -> bool
        ensures { result ≡ place_asks self }
    {
        matches!(
            self,
            Place::SeedBoot
                | Place::RouteBoot
                | Place::TickClock
                | Place::WakePoll
                | Place::Fixed
                | Place::Eval
                | Place::Sends
                | Place::Trap
                | Place::Trapped
        )
    }

    // Whether the turn runs on by itself there.
    pub fn runs(self) -> bool
        ensures { result ≡ place_runs self }
    {
        self != Place::Rest && !self.asks()
    }
}

#[derive(Clone, Copy)]
pub struct Where {
    // the number of a `Place`. Kept a number, as are the key and the step: any means a place, and a function that takes
    // these words answers for all.
    pub place: u64,
    // the group, the actor's key, and the tick's clock
    pub group: usize,
    pub key: u64,
    pub now: u64,
    // at most so many more: messages, waiting actors, keys of the ready list
    pub left: u64,
    // a step's question or end, by its number (steps). Kept a number, as is `more`: each means another type at each
    // place, and one enum of them would be a record with payloads that a call copies.
    pub step: u64,
    // beside it: the number of an outcome, a deadline; the key that Trapped asks of, or how many are to be retired
    pub more: u64,
}

// The key of a word; one that is no key is 0.
pub fn key_of(n: u64) -> u8
    ensures { result ≡ key_of n }
{
    if n < 256 { n as u8 } else { 0 }
}

// A key as a word.
pub fn key_word(key: u8) -> u64
    ensures { key_of result ≡ key }
{
    key as u64
}

// The actor of a place, with the tick's clock.
pub fn cursor_of(w: Where) -> Cursor
    ensures { result ≡ cursor_of w }
{
    Cursor {
        group: w.group,
        key: key_of(w.key),
        now: w.now,
        pops: w.left,
    }
}

// The step's end of a place.
pub fn end_of(w: Where) -> StepWords
    ensures { result ≡ end_of w }
{
    StepWords {
        end: w.step,
        until: w.more,
    }
}

// A place with nothing beside it.
fn nothing_at(place: Place) -> Where
    ensures place { place_of result.place ≡ place }
    ensures rest { result ≡ record { place = result.place; group = 0; key = 0; now = 0; left = 0; step = 0; more = 0 } }
{
    Where {
        place: u64::from(place),
        group: 0,
        key: 0,
        now: 0,
        left: 0,
        step: 0,
        more: 0,
    }
}

// A place of an actor.
fn actor_at(place: Place, cursor: Cursor) -> Where
    ensures place { place_of result.place ≡ place }
    ensures cursor { cursor_of result ≡ cursor }
{
    Where {
        group: cursor.group,
        key: key_word(cursor.key),
        now: cursor.now,
        left: cursor.pops,
        ..nothing_at(place)
    }
}

// A place of an actor whose step ended.
fn ended_at(place: Place, cursor: Cursor, step: StepWords) -> Where
    ensures place { place_of result.place ≡ place }
    ensures cursor { cursor_of result ≡ cursor }
    ensures end { end_of result ≡ step }
{
    Where {
        step: step.end,
        more: step.until,
        ..actor_at(place, cursor)
    }
}

// No turn.
// Kept, from here on: one maker for each place. Each ensures another meaning, which its callers need, and its body is
// a line or two over `nothing_at`, `actor_at` or `ended_at`.
#[tactic(auto, unfolding(crate::specs::Words::at_of))]
pub fn rest() -> Where
    ensures { at_of result ≡ At.Rest }
{
    nothing_at(Place::Rest)
}

// Boot of a seed.
#[tactic(auto, unfolding(crate::specs::Words::at_of))]
pub fn seed_boot(group: usize) -> Where
    ensures { at_of result ≡ At.Asks (Ask.SeedBoot group) }
{
    Where {
        group,
        ..nothing_at(Place::SeedBoot)
    }
}

// Boot, for the first message of the batch, of which at most so many are left.
#[tactic(auto, unfolding(crate::specs::Words::at_of))]
pub fn route_boot(group: usize, left: u64) -> Where
    ensures { at_of result ≡ At.Asks (Ask.RouteBoot group left) }
{
    Where {
        group,
        left,
        ..nothing_at(Place::RouteBoot)
    }
}

// The tick's clock.
#[tactic(auto, unfolding(crate::specs::Words::at_of))]
pub fn tick_clock() -> Where
    ensures { at_of result ≡ At.Asks Ask.TickClock }
{
    nothing_at(Place::TickClock)
}

// Poll, of an actor of the group.
#[tactic(auto, unfolding(crate::specs::Words::at_of))]
pub fn wake_poll(group: usize, key: u8, now: u64, left: u64) -> Where
    ensures { at_of result ≡ At.Asks (Ask.WakePoll group key now left) }
{
    Where {
        group,
        key: key_word(key),
        now,
        left,
        ..nothing_at(Place::WakePoll)
    }
}

// A question of a fixed actor's step, by the number of its kind (steps).
#[tactic(auto, unfolding(crate::specs::Words::at_of))]
pub fn fixed(cursor: Cursor, ask: u64) -> Where
    ensures { at_of result ≡ At.Asks (Ask.Fixed cursor (fixed_ask_of (fixed_kind_of ask))) }
{
    Where {
        step: ask,
        ..actor_at(Place::Fixed, cursor)
    }
}

// A question of an eval actor's step, with the outcome that Tell tells, each by its number.
#[tactic(auto, unfolding(crate::specs::Words::at_of))]
pub fn eval(cursor: Cursor, ask: u64, outcome: u64) -> Where
    ensures { at_of result ≡ At.Asks (Ask.Eval cursor (eval_ask_of (eval_kind_of ask) (outcome_of outcome))) }
{
    Where {
        step: ask,
        more: outcome,
        ..actor_at(Place::Eval, cursor)
    }
}

// Sends, of a fixed actor.
#[tactic(auto, unfolding(crate::specs::Words::at_of))]
pub fn sends(cursor: Cursor, step: StepWords) -> Where
    ensures { at_of result ≡ At.Asks (Ask.Sends cursor (step_of step)) }
{
    ended_at(Place::Sends, cursor, step)
}

// Trap.
#[tactic(auto, unfolding(crate::specs::Words::at_of))]
pub fn trap(cursor: Cursor) -> Where
    ensures { at_of result ≡ At.Asks (Ask.Trap cursor) }
{
    actor_at(Place::Trap, cursor)
}

// Trapped, of the actor with this key.
#[tactic(auto, unfolding(crate::specs::Words::at_of))]
pub fn trapped(cursor: Cursor, other: u8) -> Where
    ensures { at_of result ≡ At.Asks (Ask.Trapped cursor other) }
{
    Where {
        more: other as u64,
        ..actor_at(Place::Trapped, cursor)
    }
}

// The first turn's spawns, from this group on.
#[tactic(auto, unfolding(crate::specs::Words::at_of))]
pub fn seed(group: usize) -> Where
    ensures { at_of result ≡ At.Runs (Point.Seed group) }
{
    Where {
        group,
        ..nothing_at(Place::Seed)
    }
}

// The inbox is taken in, at most so many messages more.
#[tactic(auto, unfolding(crate::specs::Words::at_of))]
pub fn intake(left: u64) -> Where
    ensures { at_of result ≡ At.Runs (Point.Intake left) }
{
    Where {
        left,
        ..nothing_at(Place::Intake)
    }
}

// The batch is routed, at most so many messages more.
#[tactic(auto, unfolding(crate::specs::Words::at_of))]
pub fn route(left: u64) -> Where
    ensures { at_of result ≡ At.Runs (Point.Route left) }
{
    Where {
        left,
        ..nothing_at(Place::Route)
    }
}

// A group's waiting actors are looked at, with the tick's clock.
#[tactic(auto, unfolding(crate::specs::Words::at_of))]
pub fn wake(group: usize, now: u64) -> Where
    ensures { at_of result ≡ At.Runs (Point.Wake group now) }
{
    Where {
        group,
        now,
        ..nothing_at(Place::Wake)
    }
}

// At most so many more of them.
#[tactic(auto, unfolding(crate::specs::Words::at_of))]
pub fn wake_next(group: usize, now: u64, left: u64) -> Where
    ensures { at_of result ≡ At.Runs (Point.WakeNext group now left) }
{
    Where {
        group,
        now,
        left,
        ..nothing_at(Place::WakeNext)
    }
}

// The group's ready list is popped, so many times.
#[tactic(auto, unfolding(crate::specs::Words::at_of))]
pub fn ready(group: usize, now: u64, left: u64) -> Where
    ensures { at_of result ≡ At.Runs (Point.Ready group now left) }
{
    Where {
        group,
        now,
        left,
        ..nothing_at(Place::Ready)
    }
}

// What a fixed actor's step finished gets its marks.
#[tactic(auto, unfolding(crate::specs::Words::at_of))]
pub fn fixed_end(cursor: Cursor, step: StepWords) -> Where
    ensures { at_of result ≡ At.Runs (Point.StepEnd cursor (End.Fixed (step_of step))) }
{
    ended_at(Place::FixedEnd, cursor, step)
}

// What an eval actor's step finished gets its marks.
#[tactic(auto, unfolding(crate::specs::Words::at_of))]
pub fn eval_end(cursor: Cursor, step: StepWords) -> Where
    ensures { at_of result ≡ At.Runs (Point.StepEnd cursor (End.Eval (parked_of step))) }
{
    ended_at(Place::EvalEnd, cursor, step)
}

// The actor is put back into a list, or released.
#[tactic(auto, unfolding(crate::specs::Words::at_of))]
pub fn settle(cursor: Cursor, step: StepWords) -> Where
    ensures { at_of result ≡ At.Runs (Point.Settle cursor (step_of step)) }
{
    ended_at(Place::Settle, cursor, step)
}

// Its mail, where it never took a message, gets its marks; then the crashed message is tried again, or dead.
#[tactic(auto, unfolding(crate::specs::Words::at_of))]
pub fn crash(cursor: Cursor) -> Where
    ensures { at_of result ≡ At.Runs (Point.Crash cursor) }
{
    actor_at(Place::Crash, cursor)
}

// A dead message gets its mark; then Trap is asked.
#[tactic(auto, unfolding(crate::specs::Words::at_of))]
pub fn ask_trap(cursor: Cursor) -> Where
    ensures { at_of result ≡ At.Runs (Point.AskTrap cursor) }
{
    actor_at(Place::AskTrap, cursor)
}

// Those that were trapped are retired, at most so many more.
#[tactic(auto, unfolding(crate::specs::Words::at_of))]
pub fn crash_trapped(cursor: Cursor, left: u64) -> Where
    ensures { at_of result ≡ At.Runs (Point.CrashTrapped cursor left) }
{
    Where {
        more: left,
        ..actor_at(Place::CrashTrapped, cursor)
    }
}
