// The calls turn, reply, sync and close: each is refused by its table, or has its effect.
// Kept: the tables stay parameters of `turn` and `reply`: these are public, where the host lends each table by itself,
// and make the `Rail` for what they call; and of `collect_send`, which writes the body store, where a `Rail` lends it
// only to be read.
ghost use Rattle.std.specs.Prelude.{◌≡◌, List, ℕ};
ghost use Rattle.lists.specs.Links.{Table};
ghost use Rattle.points.specs.Words.{at_of};
ghost use Rattle.turn.specs.Words.{pool_of};
ghost use Rattle.turn.specs.Rail.{state_in, RailKept};
ghost use Rattle.answers.specs.Answers.{answer_of};
ghost use Rattle.pool.specs.Run.{did_in};
ghost use Rattle.pool.specs.Calls.{first_point, begun_turn, turn_of, stored_of, failed_of, collect_send};
ghost use Rattle.pool.specs.Calls.{resume_at};
ghost use Rattle.pool.specs.Calls.{resumed_of, reply_of, sync_did, sync_of};
ghost use Rattle.pool.specs.Calls.{close_of};

use crate::run;
use actor::entry;
use actor::entry::Arrival;
use actor::message::MessageRow;
use actor::question::Reply;
use actor::state::ActorRow;
use answers::answer::{Accepted, Called};
use answers::refusals;
use group::settings::GroupRow;
use lists::LinkRow;
use lists::keys::KeyRow;
use message_log::{RecordRow, wal};
use points::words;
use points::words::{Place, Where};
use turn::state::{PoolCells, Rail, What};
use turn::{resume, state};

// Where a turn begins: the first one with the spawns.
fn first_point(seeded: bool) -> Where
    ensures { at_of result ≡ first_point seeded }
{
    if seeded {
        words::intake(lists::MESSAGES)
    } else {
        words::seed(0)
    }
}

// A turn begins.
fn begin(pool: &mut PoolCells)
    ensures { pool_of pool.new ≡ begun_turn (pool_of pool.old) }
{
    state::begin_at(pool, first_point(state::seeded(pool)));
}

// A turn: it runs until a question or an order is open, or it ended.
pub fn turn(
    pool: &mut PoolCells,
    log: &mut [u8],
    records: &mut [RecordRow],
    store: &[u8],
    groups: &[GroupRow],
    links: &mut [LinkRow],
    rows: &mut [MessageRow],
    keys: &mut [KeyRow],
    actors: &mut [ActorRow],
) -> Called
    ensures { record {
      state = record {
        pool = pool_of pool.new;
        bytes = log.new;
        records = records.new;
        store = store.now;
        groups = groups.now;
        links = links.new;
        rows = rows.new;
        keys = keys.new;
        actors = actors.new;
      };
      answer = answer_of result (pool_of pool.new) links.new rows.new;
    }
        ≡ turn_of
        (record {
          pool = pool_of pool.old;
          bytes = log.old;
          records = records.old;
          store = store.now;
          groups = groups.now;
          links = links.old;
          rows = rows.old;
          keys = keys.old;
          actors = actors.old;
        }) }
{
    refusals::turn_check(pool)?;
    begin(pool);
    run::run(&mut Rail {
        pool,
        log,
        records,
        store,
        groups,
        links,
        rows,
        keys,
        actors,
    })
}

// The order is stored: a turn that waited for it runs on, or its question is shown again; with no turn under way
// nothing is open.
#[tactic(auto, unfolding(crate::specs::Calls::stored_of, answers::specs::Answers::shown))]
fn stored(t: &mut Rail) -> Called
    ensures kept { RailKept t.old t.new }
    ensures did { did_in t.new result ≡ stored_of (state_in t.old) }
{
    let pool = &mut *t.pool;
    let during = refusals::in_turn(state::where_in(pool));
    state::set_disk(pool, state::free());
    if during {
        return run::run(t);
    }
    Ok(Accepted::Open)
}

// The order failed: nothing is open, and nothing is taken any more.
#[tactic(auto, unfolding(crate::specs::Calls::failed_of, answers::specs::Answers::shown))]
fn failed(t: &mut Rail) -> Called
    ensures kept { RailKept t.old t.new }
    ensures did { did_in t.new result ≡ failed_of (state_in t.old) }
{
    let pool = &mut *t.pool;
    state::set_disk(pool, state::failed());
    Ok(Accepted::Open)
}

// A message that was sent goes to pending's end, not logged, and Sends is asked again.
fn collect_send(
    pool: &mut PoolCells,
    store: &mut [u8],
    links: &mut [LinkRow],
    rows: &mut [MessageRow],
    name: &[u8],
    body: &[u8],
) -> Called
    ensures { (bytes : List ℕ) (records groups keys actors : Table) →
        record {
          state = record {
            pool = pool_of pool.new;
            bytes = bytes;
            records = records;
            store = store.new;
            groups = groups;
            links = links.new;
            rows = rows.new;
            keys = keys;
            actors = actors;
          };
          answer = answer_of result (pool_of pool.new) links.new rows.new;
        }
        ≡ collect_send
        (record {
          pool = pool_of pool.old;
          bytes = bytes;
          records = records;
          store = store.old;
          groups = groups;
          links = links.old;
          rows = rows.old;
          keys = keys;
          actors = actors;
        })
        name.now body.now }
{
    let message = Arrival {
        name,
        body,
        caller: None,
        id: None,
    };
    entry::keep(store, links, rows, message, lists::PENDING);
    Ok(Accepted::Open)
}

// The turn's question is answered, where one is open.
#[tactic(auto, using(crate::proofs::ReplyLaws::resume_unasked))]
fn resume_at(t: &mut Rail, reply: Reply)
    ensures kept { RailKept t.old t.new }
    ensures resumed { state_in t.new ≡ resume_at (state_in t.old) reply }
{
    let pool = &mut *t.pool;
    let w = state::where_in(pool);
    if Place::from(w.place).asks() {
        let rows = &mut *t.rows;
        resume::resume(pool, t.groups, t.links, rows, t.keys, t.actors, w, reply);
    }
}

// The turn goes on from the reply to its question.
#[tactic(auto, unfolding(crate::specs::Calls::resumed_of))]
fn resumed(t: &mut Rail, reply: Reply) -> Called
    ensures kept { RailKept t.old t.new }
    ensures did { did_in t.new result ≡ resumed_of (state_in t.old) reply }
{
    resume_at(t, reply);
    run::run(t)
}

// A reply, with the bytes of a message that was sent: the order's, such a message, or the answer to the turn's
// question.
pub fn reply(
    pool: &mut PoolCells,
    log: &mut [u8],
    records: &mut [RecordRow],
    store: &mut [u8],
    groups: &[GroupRow],
    links: &mut [LinkRow],
    rows: &mut [MessageRow],
    keys: &mut [KeyRow],
    actors: &mut [ActorRow],
    reply: Reply,
    name: &[u8],
    body: &[u8],
) -> Called
    ensures { record {
      state = record {
        pool = pool_of pool.new;
        bytes = log.new;
        records = records.new;
        store = store.new;
        groups = groups.now;
        links = links.new;
        rows = rows.new;
        keys = keys.new;
        actors = actors.new;
      };
      answer = answer_of result (pool_of pool.new) links.new rows.new;
    }
        ≡ reply_of
        (record {
          pool = pool_of pool.old;
          bytes = log.old;
          records = records.old;
          store = store.old;
          groups = groups.now;
          links = links.old;
          rows = rows.old;
          keys = keys.old;
          actors = actors.old;
        })
        reply name.now body.now }
{
    refusals::reply_check(pool, links, rows, reply, name, body)?;
    if let Reply::Message = reply {
        return collect_send(pool, store, links, rows, name, body);
    }
    let t = &mut Rail {
        pool,
        log,
        records,
        store,
        groups,
        links,
        rows,
        keys,
        actors,
    };
    match reply {
        Reply::Stored => stored(t),
        Reply::Failed => failed(t),
        _ => resumed(t, reply),
    }
}

// A sync that is accepted: a flush waits, if one was due.
fn sync_log(pool: &mut PoolCells) -> Called
    ensures { (bytes : List ℕ) (records : Table) (store : List ℕ) (groups links rows keys actors : Table) →
        record {
          state = record {
            pool = pool_of pool.new;
            bytes = bytes;
            records = records;
            store = store;
            groups = groups;
            links = links;
            rows = rows;
            keys = keys;
            actors = actors;
          };
          answer = answer_of result (pool_of pool.new) links rows;
        }
        ≡ sync_did
        (record {
          pool = pool_of pool.old;
          bytes = bytes;
          records = records;
          store = store;
          groups = groups;
          links = links;
          rows = rows;
          keys = keys;
          actors = actors;
        }) }
{
    let mut counters = state::counters(pool);
    if let Some(order) = wal::sync(&mut counters) {
        state::set_log(
            pool,
            counters,
            state::waits(order, u64::from(What::Nothing), 0),
        );
    }
    Ok(Accepted::Open)
}

// A flush is ordered, if a record was appended since the last one.
pub fn sync(pool: &mut PoolCells) -> Called
    ensures { (bytes : List ℕ) (records : Table) (store : List ℕ) (groups links rows keys actors : Table) →
        record {
          state = record {
            pool = pool_of pool.new;
            bytes = bytes;
            records = records;
            store = store;
            groups = groups;
            links = links;
            rows = rows;
            keys = keys;
            actors = actors;
          };
          answer = answer_of result (pool_of pool.new) links rows;
        }
        ≡ sync_of
        (record {
          pool = pool_of pool.old;
          bytes = bytes;
          records = records;
          store = store;
          groups = groups;
          links = links;
          rows = rows;
          keys = keys;
          actors = actors;
        }) }
{
    refusals::sync_check(pool)?;
    sync_log(pool)
}

// No more is admitted; closing twice is accepted.
pub fn close(pool: &mut PoolCells) -> Called
    ensures { (bytes : List ℕ) (records : Table) (store : List ℕ) (groups links rows keys actors : Table) →
        record {
          state = record {
            pool = pool_of pool.new;
            bytes = bytes;
            records = records;
            store = store;
            groups = groups;
            links = links;
            rows = rows;
            keys = keys;
            actors = actors;
          };
          answer = answer_of result (pool_of pool.new) links rows;
        }
        ≡ close_of
        (record {
          pool = pool_of pool.old;
          bytes = bytes;
          records = records;
          store = store;
          groups = groups;
          links = links;
          rows = rows;
          keys = keys;
          actors = actors;
        }) }
{
    refusals::sync_check(pool)?;
    state::close(pool);
    Ok(Accepted::Open)
}
