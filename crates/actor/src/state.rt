// The state of an actor: how it runs (fixed or eval), and plain fields. What it has in its mailbox and in its hands
// are lists of the crate `lists`. It is read and changed where it lies, in its row of twelve cells: a read takes the
// cells that it needs, and a change stores the cells whose meaning it changes. The definitions are exact for every
// row; that what is put is read back is `actor_put` (proofs/Back.antt).
#![tactic(auto, using(crate::proofs::Onto::changed), unfolding(crate::specs::Actors::actor_at, crate::specs::Actors::actor_of, crate::specs::Actors::put_actor))]

ghost use Rattle.std.specs.Prelude.{◌≡◌, set};
ghost use Rattle.actor.specs.Actors.{mode_onto, kept_number, flagged, numbered, unnumbered, actor_at, put_actor};
ghost use Rattle.actor.specs.Actors.{new_actor, delivered_to, scheduled_as, began_step, started_as, idled_as};
ghost use Rattle.actor.specs.Actors.{consumed_as, running_to, blocked_to, yielded_as, woken_as, deadline_of, has_run};

use crate::cells::number_at;
use lists::cell_at;

// A fixed program that loops over receive(), or an evaluator of one message at a time.
#[derive(Clone, Copy, PartialEq, Eq)]
pub enum Mode {
    Fixed,
    Eval,
}

// An actor's row, as it is lent: the mode, seven flags, whether and when it is woken, whether there is an eval run
// and its deadline.
// Kept: numbers for the mode, the flags and the tags, since the row is lent memory of numbers.
pub type ActorRow = [u64; 12];

// The cells of a row, in order: 0 is a fixed actor, and of the flags and the two tags 0 is no.
const MODE_CELL: usize = 0;

const STARTED: usize = 1;

const RAN: usize = 2;

const IDLE: usize = 3;

const RUNNABLE: usize = 4;

const SCHEDULED: usize = 5;

const BLOCKED: usize = 6;

const CONSUMED: usize = 7;

const WAKES: usize = 8;

const WAKES_AT: usize = 9;

const RUNS: usize = 10;

const RUNS_UNTIL: usize = 11;

// What a row means.
#[derive(Drop)]
pub struct Actor {
    pub mode: Mode,
    // the program was started
    pub started: bool,
    // false until the first step
    pub ran: bool,
    // parked in receive() with nothing to take
    pub idle: bool,
    // a wait ended: it runs again even with an empty mailbox
    pub runnable: bool,
    // in the ready list, so that a burst of deliveries queues it once
    pub scheduled: bool,
    // parked on a host call
    pub blocked: bool,
    // it took a message from its mailbox
    pub consumed: bool,
    // when a blocked actor is woken at the latest (the Rust's name)
    pub wake_at: Option<u64>,
    // an eval run between steps, with its deadline; its message is in the actor's hands
    pub run: Option<u64>,
}

// ---- a row of the table; past the table's end it is that of a new fixed actor
// Kept: one reader for each cell, a line each over `cell_at` and `number_at`: each says by its contract which field of
// the actor its cell means, and callers name no cells.

// How it runs.
pub fn mode_at(actors: &[ActorRow], slot: usize) -> Mode
    ensures { result ≡ (actor_at actors.now slot).mode }
{
    if cell_at(actors, slot, MODE_CELL) == 0 {
        Mode::Fixed
    } else {
        Mode::Eval
    }
}

// Whether its program was started.
pub fn is_started(actors: &[ActorRow], slot: usize) -> bool
    ensures { result ≡ (actor_at actors.now slot).started }
{
    cell_at(actors, slot, STARTED) != 0
}

// Whether it was ever stepped.
pub fn has_run_once(actors: &[ActorRow], slot: usize) -> bool
    ensures { result ≡ (actor_at actors.now slot).ran }
{
    cell_at(actors, slot, RAN) != 0
}

// Whether it is parked in receive() with nothing to take.
pub fn is_idle(actors: &[ActorRow], slot: usize) -> bool
    ensures { result ≡ (actor_at actors.now slot).idle }
{
    cell_at(actors, slot, IDLE) != 0
}

// Whether a wait ended.
pub fn is_runnable(actors: &[ActorRow], slot: usize) -> bool
    ensures { result ≡ (actor_at actors.now slot).runnable }
{
    cell_at(actors, slot, RUNNABLE) != 0
}

// Whether it is in the ready list.
pub fn is_scheduled(actors: &[ActorRow], slot: usize) -> bool
    ensures { result ≡ (actor_at actors.now slot).scheduled }
{
    cell_at(actors, slot, SCHEDULED) != 0
}

// Whether it is parked on a host call.
pub fn is_blocked(actors: &[ActorRow], slot: usize) -> bool
    ensures { result ≡ (actor_at actors.now slot).blocked }
{
    cell_at(actors, slot, BLOCKED) != 0
}

// Whether it ever took a message from its mailbox.
pub fn has_consumed(actors: &[ActorRow], slot: usize) -> bool
    ensures { result ≡ (actor_at actors.now slot).consumed }
{
    cell_at(actors, slot, CONSUMED) != 0
}

// When it is woken at the latest.
pub fn wakes_at(actors: &[ActorRow], slot: usize) -> Option<u64>
    ensures { result ≡ (actor_at actors.now slot).wake_at }
{
    number_at(actors, slot, WAKES, WAKES_AT)
}

// Its run between steps, where it has one: until when.
fn run_at(actors: &[ActorRow], slot: usize) -> Option<u64>
    ensures { result ≡ (actor_at actors.now slot).run }
{
    number_at(actors, slot, RUNS, RUNS_UNTIL)
}

// Whether a run waits between steps.
pub fn has_run(actors: &[ActorRow], slot: usize) -> bool
    ensures { result ≡ has_run (actor_at actors.now slot).run }
{
    run_at(actors, slot).is_some()
}

// The deadline of its run; of none, 0.
pub fn deadline_of(actors: &[ActorRow], slot: usize) -> u64
    ensures { result ≡ deadline_of (actor_at actors.now slot).run }
{
    run_at(actors, slot).unwrap_or(0)
}

// ---- cells of one row: a cell is written only where its meaning changes

// A cell of a row is stored.
// Kept: as `put_keys` of the crate lists, which stores a row; one function of both would be public, for one line.
fn put_cell(row: &mut [u64], i: usize, n: u64)
    ensures { row.new ≡ set row.old i n }
{
    if i < row.len() {
        row[i] = n;
    }
}

// A flag of a row is set.
fn raise(row: &mut [u64], i: usize)
    ensures { row.new ≡ flagged row.old i }
{
    if i < row.len() && row[i] == 0 {
        row[i] = 1;
    }
}

// The tag at `i` says that there is a number, and the cell `at` which.
fn put_number(row: &mut [u64], i: usize, at: usize, n: u64)
    ensures { row.new ≡ numbered row.old i at n }
{
    raise(row, i);
    put_cell(row, at, n);
}

// The tag at `i` says that there is no number; the one that was there is gone.
#[tactic(auto, using(crate::proofs::Onto::unnumbered_same))]
fn clear_number(row: &mut [u64], i: usize, at: usize)
    ensures { row.new ≡ unnumbered row.old i at }
{
    if i < row.len() && row[i] != 0 {
        row[i] = 0;
        put_cell(row, at, 0);
    }
}

// A mode as a cell, over the cell `n` that was there.
fn mode_onto(n: u64, m: Mode) -> u64
    ensures { result ≡ mode_onto n m }
{
    match m {
        Mode::Fixed => 0,
        Mode::Eval => n.max(1),
    }
}

// The number of what is not there: as it was where nothing was there before.
fn kept_number(tag: u64, n: u64) -> u64
    ensures { result ≡ kept_number tag n }
{
    if tag == 0 { n } else { 0 }
}

// ---- changes of an actor where it lies; past the table's end nothing is stored
// Kept: one function for each change, over `raise` and `put_cell`: each says by its contract what the actor is then,
// and callers name no cells.

// An actor that has never been stepped takes the slot.
#[tactic(auto, unfolding(crate::specs::Actors::put_actor, crate::specs::Actors::actor_onto))]
pub fn new_at(actors: &mut [ActorRow], slot: usize, mode: Mode)
    ensures { actors.new ≡ put_actor actors.old slot (new_actor mode) }
{
    if slot < actors.len() {
        let c = actors[slot];
        let m = mode_onto(c[MODE_CELL], mode);
        let ns = kept_number(c[WAKES], c[WAKES_AT]);
        let until = kept_number(c[RUNS], c[RUNS_UNTIL]);
        actors[slot] = [m, 0, 0, 0, 0, 0, 0, 0, 0, ns, 0, until];
    }
}

// A message came to its mailbox: it is idle no more.
pub fn delivered_at(actors: &mut [ActorRow], slot: usize)
    ensures { actors.new
        ≡ put_actor actors.old slot (delivered_to (actor_at actors.old slot)) }
{
    if slot < actors.len() {
        actors[slot][IDLE] = 0;
    }
}

// In the ready list, or not.
pub fn scheduled_at(actors: &mut [ActorRow], slot: usize, there: bool)
    ensures { actors.new
        ≡ put_actor actors.old slot (scheduled_as (actor_at actors.old slot) there) }
{
    if slot < actors.len() {
        if there {
            raise(&mut actors[slot], SCHEDULED);
        } else {
            put_cell(&mut actors[slot], SCHEDULED, 0);
        }
    }
}

// A step begins.
pub fn began_at(actors: &mut [ActorRow], slot: usize)
    ensures { actors.new
        ≡ put_actor actors.old slot (began_step (actor_at actors.old slot)) }
{
    if slot < actors.len() {
        let row = &mut actors[slot];
        raise(row, RAN);
        put_cell(row, RUNNABLE, 0);
    }
}

// Its program was started.
pub fn started_at(actors: &mut [ActorRow], slot: usize)
    ensures { actors.new
        ≡ put_actor actors.old slot (started_as (actor_at actors.old slot)) }
{
    if slot < actors.len() {
        raise(&mut actors[slot], STARTED);
    }
}

// Parked in receive() with nothing to take.
pub fn idled_at(actors: &mut [ActorRow], slot: usize)
    ensures { actors.new
        ≡ put_actor actors.old slot (idled_as (actor_at actors.old slot)) }
{
    if slot < actors.len() {
        raise(&mut actors[slot], IDLE);
    }
}

// It took a message.
pub fn consumed_at(actors: &mut [ActorRow], slot: usize)
    ensures { actors.new
        ≡ put_actor actors.old slot (consumed_as (actor_at actors.old slot)) }
{
    if slot < actors.len() {
        raise(&mut actors[slot], CONSUMED);
    }
}

// It handed the thread on, and runs again.
pub fn yielded_at(actors: &mut [ActorRow], slot: usize)
    ensures { actors.new
        ≡ put_actor actors.old slot (yielded_as (actor_at actors.old slot)) }
{
    if slot < actors.len() {
        raise(&mut actors[slot], RUNNABLE);
    }
}

// Its run is this one, or over.
pub fn running_at(actors: &mut [ActorRow], slot: usize, run: Option<u64>)
    ensures { actors.new
        ≡ put_actor actors.old slot (running_to (actor_at actors.old slot) run) }
{
    if slot < actors.len() {
        match run {
            Some(ns) => put_number(&mut actors[slot], RUNS, RUNS_UNTIL, ns),
            None => clear_number(&mut actors[slot], RUNS, RUNS_UNTIL),
        }
    }
}

// Parked on a host call, woken at the latest at `until`.
pub fn blocked_at(actors: &mut [ActorRow], slot: usize, until: Option<u64>)
    ensures { actors.new
        ≡ put_actor actors.old slot (blocked_to (actor_at actors.old slot) until) }
{
    if slot < actors.len() {
        let row = &mut actors[slot];
        raise(row, BLOCKED);
        match until {
            Some(ns) => put_number(row, WAKES, WAKES_AT, ns),
            None => clear_number(row, WAKES, WAKES_AT),
        }
    }
}

// Its wait ended.
pub fn woken_at(actors: &mut [ActorRow], slot: usize)
    ensures { actors.new
        ≡ put_actor actors.old slot (woken_as (actor_at actors.old slot)) }
{
    if slot < actors.len() {
        let row = &mut actors[slot];
        raise(row, RUNNABLE);
        put_cell(row, BLOCKED, 0);
        clear_number(row, WAKES, WAKES_AT);
    }
}
