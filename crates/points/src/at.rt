// Where a turn stands: at rest, at a question, or at a point between two, with what it remembers there. All else is in
// the lists, the actors and the key lists. Code hands this on as words (`words::Where`): the enums here are what the
// words mean, and every definition speaks of them.
ghost use Rattle.std.specs.Prelude.{◌≡◌};
ghost use Rattle.points.specs.At.{who_of, ready_after, fixed_after, eval_after, next_group};
ghost use Rattle.points.specs.Words.{at_of};
ghost use Rattle.steps.specs.Words.{fixed_next_of, eval_next_of};

use crate::words;
use crate::words::Where;
use actor::question::Who;
use steps::eval::{EvalAsk, EvalWords};
use steps::fixed::{FixedAsk, FixedWords};
use steps::step::{End, Step};

// The step under way: its actor, the tick's clock, and how many keys its group still has to pop after it.
#[derive(Clone, Copy)]
pub struct Cursor {
    pub group: usize,
    pub key: u8,
    pub now: u64,
    pub pops: u64,
}

// A question of the turn is open: each goes on with the reply to it.
#[derive(Drop)]
pub enum Ask {
    // Boot of a seed
    SeedBoot(usize),
    // Boot, for the first message of the batch, of which at most so many are left
    RouteBoot(usize, u64),
    // the tick's clock
    TickClock,
    // Poll, of an actor of the group, with the tick's clock, and at most so many actors after it
    WakePoll(usize, u8, u64, u64),
    // a question of a fixed actor's step
    Fixed(Cursor, FixedAsk),
    // a question of an eval actor's step
    Eval(Cursor, EvalAsk),
    // Sends, of a fixed actor
    Sends(Cursor, Step),
    // Trap
    Trap(Cursor),
    // Trapped, of the actor with this key
    Trapped(Cursor, u8),
}

// A point between two questions: each goes on by itself.
#[derive(Drop)]
pub enum Point {
    // the first turn's spawns, from this group on
    Seed(usize),
    // the inbox is taken in, at most so many messages more
    Intake(u64),
    // the batch is routed, at most so many messages more
    Route(u64),
    // a group's waiting actors are looked at, with the tick's clock
    Wake(usize, u64),
    // at most so many more of them
    WakeNext(usize, u64, u64),
    // the group's ready list is popped, so many times
    Ready(usize, u64, u64),
    // what the step finished gets its marks
    StepEnd(Cursor, End),
    // the actor is put back into a list, or released
    Settle(Cursor, Step),
    // its mail, where it never took a message, gets its marks; then the crashed message is tried again, or dead
    Crash(Cursor),
    // a dead message gets its mark; then Trap is asked
    AskTrap(Cursor),
    // those that were trapped are retired, at most so many more
    CrashTrapped(Cursor, u64),
}

#[derive(Drop)]
pub enum At {
    // no turn
    Rest,
    // it waits for a reply
    Asks(Ask),
    // it runs on by itself
    Runs(Point),
}

// An actor by its group and key.
pub fn who_of(group: usize, key: u8) -> Who
    ensures { result ≡ who_of group key }
{
    Who {
        group,
        key: key as usize,
    }
}

// The group after a group, of 8.
pub fn next_group(g: usize) -> usize
    ensures { result ≡ next_group g }
{
    if g < lists::GROUPS {
        g + 1
    } else {
        lists::GROUPS
    }
}

// A step is settled: the group's ready list goes on.
pub fn ready_after(c: Cursor) -> Where
    ensures { at_of result ≡ ready_after c }
{
    words::ready(c.group, c.now, c.pops)
}

// A step of a fixed actor is at its next question, or ended.
#[tactic(auto, unfolding(steps::specs::Words::fixed_next_of, steps::specs::Words::fixed_kind_of))]
pub fn fixed_after(c: Cursor, next: FixedWords) -> Where
    ensures { at_of result ≡ fixed_after c (fixed_next_of next) }
{
    match next.ask {
        Some(ask) => words::fixed(c, ask as u64),
        None => words::fixed_end(c, next.step),
    }
}

// A step of an eval actor is at its next question, or ended.
#[tactic(auto, unfolding(steps::specs::Words::eval_next_of, steps::specs::Words::eval_kind_of, actor::specs::Questions::outcome_of))]
pub fn eval_after(c: Cursor, next: EvalWords) -> Where
    ensures { at_of result ≡ eval_after c (eval_next_of next) }
{
    match next.ask {
        Some(ask) => words::eval(c, ask as u64, next.outcome as u64),
        None => words::eval_end(c, next.step),
    }
}
