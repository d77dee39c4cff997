// The pool's calls one at a time and without a script, for measuring (compare/src/bench), until there is a live
// interface. The host lends each function the pool's cells, the log, the store and the tables as the call before left
// them. A function reads its numbers, makes the call, and says what is open; it requires nothing, and equals the
// definition of its call (specs/Drive). A reply has no texts here: no list that is measured sends a message.
#![tactic(auto)]

ghost use Rattle.std.specs.Prelude.{◌≡◌, []};
ghost use Rattle.lists.specs.Links.{Table};
ghost use Rattle.turn.specs.Words.{pool_of};
ghost use Rattle.answers.specs.Answers.{answer_of};
ghost use Rattle.pool.specs.Open.{open_of};
ghost use Rattle.pool.specs.Admit.{admit_of};
ghost use Rattle.pool.specs.Calls.{turn_of, reply_of};
ghost use Rattle.drive.specs.Drive.{
  settings_in,
  driven_caller,
  driven_status,
  driven_reply,
  entry_number,
  shown_by,
  driven,
};

use actor::message::{CallerId, MessageRow};
use actor::question::{Reply, Status};
use actor::state::ActorRow;
use answers::answer::Called;
use answers::{answer, numbers};
use group::roster;
use group::settings::GroupRow;
use lists::LinkRow;
use lists::keys::KeyRow;
use message_log::{RECORDS, RecordRow, STORE};
use pool::{admit, calls, open};
use settings::ranges::Settings;
use turn::state::PoolCells;

// What a call answers: which answer and its values, as answers::numbers has them, and the entry of the message that it
// shows, or 256.
// Kept: `kind` is a number, since C reads this struct.
#[repr(C)]
#[derive(Drop)]
pub struct Shown {
    pub kind: u64,
    pub a: u64,
    pub b: u64,
    pub c: u64,
    pub entry: u64,
}

fn settings_in(s: &[u64; 5]) -> Settings
    ensures { result ≡ settings_in s.now }
{
    let [max_actors, inbox, backlog, compact_at, tick] = *s;
    Settings {
        max_actors,
        inbox,
        backlog,
        compact_at,
        tick,
    }
}

// 0 nobody, any other number the caller with this id.
#[tactic(auto, unfolding(crate::specs::Drive::driven_caller))]
fn caller_in(who: u64, id: u64) -> Option<CallerId>
    ensures { result ≡ driven_caller who id }
{
    if who == 0 { None } else { Some(CallerId(id)) }
}

// The numbers of docs/PROTOCOL.md; one that stands for nothing there is the last of them.
// Kept: no `From`, which the enum's own crate would have to give, with a meaning for each number; this is only a
// host's.
#[tactic(auto, unfolding(crate::specs::Drive::driven_status))]
fn status_in(value: u64) -> Status
    ensures { result ≡ driven_status value }
{
    match value {
        0 => Status::Done,
        1 => Status::Exit,
        2 => Status::Preempted,
        3 => Status::Event,
        4 => Status::HostCall,
        5 => Status::Error,
        _ => Status::Broke,
    }
}

// The same; 5, a message, has texts, and is none here.
// Kept: a switch on the kind, which a host in C gives as a number.
#[tactic(auto, unfolding(crate::specs::Drive::driven_reply))]
fn reply_in(kind: u64, value: u64) -> Reply
    ensures { result ≡ driven_reply kind value }
{
    match kind {
        0 => Reply::No,
        1 => Reply::Yes,
        2 => Reply::Clock(value),
        3 => Reply::Count(value),
        4 => Reply::Ran(status_in(value)),
        6 => Reply::End,
        7 => Reply::Told,
        8 => Reply::Stored,
        _ => Reply::Failed,
    }
}

fn entry_number(m: Option<usize>) -> u64
    ensures { result ≡ entry_number m }
{
    match m {
        None => lists::MESSAGES,
        Some(e) => e as u64,
    }
}

// Kept, here and below: the tables are parameters, since C lends each by itself.
fn show(called: Called, pool: &PoolCells, links: &[LinkRow], rows: &[MessageRow]) -> Shown
    ensures { result ≡ shown_by (answer_of called (pool_of pool.now) links.now rows.now) }
{
    let s = numbers::numbers_of(answer::answer_of(called, pool, links, rows));
    Shown {
        kind: s.kind,
        a: s.a,
        b: s.b,
        c: s.c,
        entry: entry_number(s.message),
    }
}

// Opens a pool on the first n bytes of the log. The settings are those of `Settings`, in their order.
#[unsafe(no_mangle)]
pub extern "C" fn drive_open(
    pool: &mut PoolCells,
    log: &mut [u8],
    records: &mut [RecordRow; RECORDS],
    store: &mut [u8; STORE],
    groups: &mut [GroupRow; lists::GROUPS],
    links: &mut [LinkRow; lists::LISTS],
    rows: &mut [MessageRow; lists::ENTRIES],
    keys: &mut [KeyRow; roster::ROWS],
    actors: &[ActorRow; lists::SLOTS],
    n: usize,
    settings: &[u64; 5],
    given: &[GroupRow],
) -> Shown
    ensures { record {
      state = record {
        pool = pool_of pool.new;
        bytes = log.new;
        records = records.new;
        store = store.new;
        groups = groups.new;
        links = links.new;
        rows = rows.new;
        keys = keys.new;
        actors = actors.now;
      };
      shown = result;
    }
        ≡ driven (open_of (record {
          settings = settings_in settings.now;
          groups_given = given.now;
          bytes = log.old;
          size = n;
          store = store.old;
          records = records.old;
          groups = groups.old;
          links = links.old;
          rows = rows.old;
          keys = keys.old;
          actors = actors.now;
        })) }
{
    let called = open::open(
        pool,
        settings_in(settings),
        given,
        log,
        n,
        store,
        records,
        groups,
        links,
        rows,
        keys,
        actors,
    );
    show(called, pool, links, rows)
}

// A message for the program of a group.
#[unsafe(no_mangle)]
pub extern "C" fn drive_admit(
    pool: &mut PoolCells,
    log: &mut [u8],
    records: &mut [RecordRow; RECORDS],
    store: &mut [u8; STORE],
    groups: &[GroupRow; lists::GROUPS],
    links: &mut [LinkRow; lists::LISTS],
    rows: &mut [MessageRow; lists::ENTRIES],
    who: u64,
    id: u64,
    name: &[u8],
    body: &[u8],
) -> Shown
    ensures { (keys actors : Table) →
        record {
          state = record {
            pool = pool_of pool.new;
            bytes = log.new;
            records = records.new;
            store = store.new;
            groups = groups.now;
            links = links.new;
            rows = rows.new;
            keys = keys;
            actors = actors;
          };
          shown = result;
        }
        ≡ driven (admit_of
        (record {
          pool = pool_of pool.old;
          bytes = log.old;
          records = records.old;
          store = store.old;
          groups = groups.now;
          links = links.old;
          rows = rows.old;
          keys = keys;
          actors = actors;
        })
        name.now body.now (driven_caller who id)) }
{
    let called = admit::admit(
        pool,
        log,
        records,
        store,
        groups,
        links,
        rows,
        name,
        body,
        caller_in(who, id),
    );
    show(called, pool, links, rows)
}

// A turn: it runs until a question or an order is open, or it ended.
#[unsafe(no_mangle)]
pub extern "C" fn drive_turn(
    pool: &mut PoolCells,
    log: &mut [u8],
    records: &mut [RecordRow; RECORDS],
    store: &[u8; STORE],
    groups: &[GroupRow; lists::GROUPS],
    links: &mut [LinkRow; lists::LISTS],
    rows: &mut [MessageRow; lists::ENTRIES],
    keys: &mut [KeyRow; roster::ROWS],
    actors: &mut [ActorRow; lists::SLOTS],
) -> Shown
    ensures { record {
      state = record {
        pool = pool_of pool.new;
        bytes = log.new;
        records = records.new;
        store = store.now;
        groups = groups.now;
        links = links.new;
        rows = rows.new;
        keys = keys.new;
        actors = actors.new;
      };
      shown = result;
    }
        ≡ driven (turn_of (record {
          pool = pool_of pool.old;
          bytes = log.old;
          records = records.old;
          store = store.now;
          groups = groups.now;
          links = links.old;
          rows = rows.old;
          keys = keys.old;
          actors = actors.old;
        })) }
{
    let called = calls::turn(pool, log, records, store, groups, links, rows, keys, actors);
    show(called, pool, links, rows)
}

// A reply: the order's, or the answer to the turn's question.
#[unsafe(no_mangle)]
pub extern "C" fn drive_reply(
    pool: &mut PoolCells,
    log: &mut [u8],
    records: &mut [RecordRow; RECORDS],
    store: &mut [u8; STORE],
    groups: &[GroupRow; lists::GROUPS],
    links: &mut [LinkRow; lists::LISTS],
    rows: &mut [MessageRow; lists::ENTRIES],
    keys: &mut [KeyRow; roster::ROWS],
    actors: &mut [ActorRow; lists::SLOTS],
    kind: u64,
    value: u64,
) -> Shown
    ensures { record {
      state = record {
        pool = pool_of pool.new;
        bytes = log.new;
        records = records.new;
        store = store.new;
        groups = groups.now;
        links = links.new;
        rows = rows.new;
        keys = keys.new;
        actors = actors.new;
      };
      shown = result;
    }
        ≡ driven (reply_of
        (record {
          pool = pool_of pool.old;
          bytes = log.old;
          records = records.old;
          store = store.old;
          groups = groups.now;
          links = links.old;
          rows = rows.old;
          keys = keys.old;
          actors = actors.old;
        })
        (driven_reply kind value) [] []) }
{
    let called = calls::reply(
        pool,
        log,
        records,
        store,
        groups,
        links,
        rows,
        keys,
        actors,
        reply_in(kind, value),
        &[],
        &[],
    );
    show(called, pool, links, rows)
}
