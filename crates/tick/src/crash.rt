// Crashed messages are tried again or dead (`handle_crash` of the Rust), and actors of a trapped interpreter are
// retired (`crash_trapped`).
ghost use Rattle.std.specs.Prelude.{◌≡◌, ◌+◌, ltb};
ghost use Rattle.lists.specs.Links.{capped};
ghost use Rattle.actor.specs.Messages.{message_at};
ghost use Rattle.group.specs.Settings.{group_at};
ghost use Rattle.points.specs.Words.{at_of};
ghost use Rattle.tick.specs.Crash.{
  again_first,
  handle_crash,
  crash_of,
  trapped_next,
  trap_reply,
  next_asked,
  trapped_reply,
  crash_trapped_key,
  crash_trapped,
  crashed_of,
  retiring,
  dying,
  losing,
};

use crate::settle;
use actor::message::MessageRow;
use actor::question::Reply;
use actor::{message, question};
use group::settings::GroupRow;
use group::{roster, settings};
use lists::keys::KeyRow;
use lists::{LinkRow, keys, slab};
use points::at::Cursor;
use points::words::Where;
use points::{at, words};
use steps::step;

// How many messages are dead, and how many actors crashed.
#[derive(Drop)]
pub struct Losses {
    pub dead: u64,
    pub crashes: u64,
}

// Where the turn stands then, and the counts.
#[derive(Drop)]
pub struct Crashed {
    pub at: Where,
    pub queued: u64,
    pub losses: Losses,
}

// Whether a message is tried again when it crashes.
fn again(groups: &[GroupRow], rows: &[MessageRow], g: usize, entry: usize) -> bool
    ensures { result ≡ ltb (message_at rows.now entry).attempts (group_at groups.now g).retry }
{
    message::attempts_at(rows, entry) < settings::group_at(groups, g).retry
}

// The first message of a list, if it is tried again when it crashes.
#[tactic(auto, unfolding(crate::specs::Crash::again_first))]
pub fn again_first(
    groups: &[GroupRow],
    links: &[LinkRow],
    rows: &[MessageRow],
    g: usize,
    from: usize,
) -> Option<usize>
    ensures { result ≡ again_first groups.now links.now rows.now g from }
{
    lists::first(links, from).filter(|e| again(groups, rows, g, *e))
}

// The first message of a list crashed, if there is one: it is tried again up to the group's retries, else dead and
// over. The number of the dead after it.
#[tactic(auto, unfolding(crate::specs::Crash::handle_crash, crate::specs::Crash::crashed_entry))]
fn handle_crash(
    groups: &[GroupRow],
    links: &mut [LinkRow],
    rows: &mut [MessageRow],
    g: usize,
    from: usize,
    dead: u64,
) -> u64
    ensures { record { links = links.new; rows = rows.new; dead = result }
        ≡ handle_crash groups.now (dying links.old rows.old dead) g from }
{
    let Some(entry) = lists::first(links, from) else {
        return dead;
    };
    if again(groups, rows, g, entry) {
        message::tried_at(rows, entry);
        lists::move_first(links, from, lists::PENDING);
        return dead;
    }
    step::over_first(links, rows, from);
    dead.saturating_add(1)
}

// An actor is gone, and the first message of a list crashed with it.
fn lose(
    groups: &[GroupRow],
    links: &mut [LinkRow],
    rows: &mut [MessageRow],
    g: usize,
    from: usize,
    losses: Losses,
) -> Losses
    ensures { record { links = links.new; rows = rows.new; losses = result }
        ≡ losing (handle_crash groups.now (dying links.old rows.old losses.dead) g from)
        (capped (losses.crashes + 1)) }
{
    Losses {
        dead: handle_crash(groups, links, rows, g, from, losses.dead),
        crashes: losses.crashes.saturating_add(1),
    }
}

// A failed step's actor is gone: the message in the step's hand crashed.
#[tactic(auto, unfolding(crate::specs::Crash::crash_of))]
pub fn crash(
    groups: &[GroupRow],
    links: &mut [LinkRow],
    rows: &mut [MessageRow],
    c: Cursor,
    losses: Losses,
) -> Losses
    ensures { record { links = links.new; rows = rows.new; losses = result }
        ≡ crash_of groups.now links.old rows.old c losses }
{
    lose(groups, links, rows, c.group, lists::HAND, losses)
}

// The most keys that may be trapped: those of a group.
const KEYS: u64 = slab::KEYS as u64;

// Trapped is asked of the next actor in key order; after the last those that were trapped are retired.
#[tactic(auto, unfolding(crate::specs::Crash::trapped_next))]
fn trapped_next(keys: &[KeyRow], c: Cursor, from: u8) -> Where
    ensures { at_of result ≡ trapped_next keys.now c from }
{
    match slab::next_key_at(keys, roster::slab_row(c.group), from) {
        Some(key) => words::trapped(c, key),
        None => words::crash_trapped(c, KEYS),
    }
}

// The reply to Trap; one that does not fit changes nothing.
#[tactic(auto, unfolding(crate::specs::Crash::trap_reply))]
pub fn trap_reply(keys: &mut [KeyRow], c: Cursor, reply: Reply) -> Where
    ensures { record { keys = keys.new; at = at_of result } ≡ trap_reply keys.old c reply }
{
    match question::yes_in(reply) {
        Some(true) => {
            keys::clear_at(keys, roster::TRAPPED);
            trapped_next(keys, c, 0)
        }
        Some(false) => at::ready_after(c),
        None => words::trap(c),
    }
}

// The key after a key.
fn next_asked(key: u8) -> u8
    ensures { result ≡ next_asked key }
{
    key.saturating_add(1).min(slab::KEYS)
}

// The reply to Trapped; one that does not fit changes nothing.
#[tactic(auto, unfolding(crate::specs::Crash::trapped_reply))]
pub fn trapped_reply(keys: &mut [KeyRow], c: Cursor, key: u8, reply: Reply) -> Where
    ensures { record { keys = keys.new; at = at_of result } ≡ trapped_reply keys.old c key reply }
{
    let Some(trapped) = question::yes_in(reply) else {
        return words::trapped(c, key);
    };
    if trapped {
        roster::push_key(keys, roster::TRAPPED, key);
    }
    trapped_next(keys, c, next_asked(key))
}

// A trapped actor leaves its group: its mailbox goes back to pending, and what it had in its hands crashed.
#[tactic(auto, unfolding(crate::specs::Crash::crash_trapped_key, crate::specs::Settle::leftover_of))]
fn crash_trapped_key(
    groups: &[GroupRow],
    links: &mut [LinkRow],
    rows: &mut [MessageRow],
    keys: &mut [KeyRow],
    c: Cursor,
    key: u8,
    left: u64,
    queued: u64,
    losses: Losses,
) -> Crashed
    ensures { record { links = links.new; rows = rows.new; keys = keys.new; crashed = crashed_of result }
        ≡ crash_trapped_key groups.now
        (retiring links.old rows.old keys.old queued losses) c key left }
{
    let slot = roster::slot_at(c.group, key);
    settle::retire(keys, c.group, key);
    let queued = settle::leftover(links, rows, slot, true, queued);
    Crashed {
        at: words::crash_trapped(c, left),
        queued,
        losses: lose(groups, links, rows, c.group, lists::hand(slot), losses),
    }
}

// The next of the trapped actors is retired, in key order.
#[tactic(auto, unfolding(crate::specs::Crash::crash_trapped))]
pub fn crash_trapped(
    groups: &[GroupRow],
    links: &mut [LinkRow],
    rows: &mut [MessageRow],
    keys: &mut [KeyRow],
    c: Cursor,
    left: u64,
    queued: u64,
    losses: Losses,
) -> Crashed
    ensures { record { links = links.new; rows = rows.new; keys = keys.new; crashed = crashed_of result }
        ≡ crash_trapped groups.now
        (retiring links.old rows.old keys.old queued losses) c left }
{
    match keys::front_at(keys, roster::TRAPPED) {
        Some(key) if left != 0 => {
            keys::pop_at(keys, roster::TRAPPED);
            crash_trapped_key(groups, links, rows, keys, c, key, left - 1, queued, losses)
        }
        _ => Crashed {
            at: at::ready_after(c),
            queued,
            losses,
        },
    }
}
