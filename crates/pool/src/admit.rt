// A message from outside, for a program that is loaded: logged if nobody waits for its outcome, then queued in the
// inbox.
// Kept: the tables stay parameters, since a message is written in the body store, which a `Rail` lends only to be
// read; and `admit` is public, where the host lends each table by itself, and neither lists of keys nor actors.
ghost use Rattle.std.specs.Prelude.{◌≡◌, List, ℕ};
ghost use Rattle.lists.specs.Links.{Table};
ghost use Rattle.turn.specs.Words.{pool_of};
ghost use Rattle.answers.specs.Answers.{answer_of};
ghost use Rattle.pool.specs.Admit.{admit_logged, admit_called, admit_of};

use actor::entry;
use actor::entry::Arrival;
use actor::message::{CallerId, MessageRow};
use answers::answer::{Accepted, Called};
use answers::refusals;
use group::settings::GroupRow;
use lists::LinkRow;
use message_log::{LogId, RecordRow, wal};
use turn::state;
use turn::state::{PoolCells, What};

// Logged under the next id, then in the inbox; or refused by the log.
fn admit_logged(
    pool: &mut PoolCells,
    log: &mut [u8],
    records: &mut [RecordRow],
    store: &mut [u8],
    links: &mut [LinkRow],
    rows: &mut [MessageRow],
    name: &[u8],
    body: &[u8],
) -> Called
    ensures { (groups keys actors : Table) →
        record {
          state = record {
            pool = pool_of pool.new;
            bytes = log.new;
            records = records.new;
            store = store.new;
            groups = groups;
            links = links.new;
            rows = rows.new;
            keys = keys;
            actors = actors;
          };
          answer = answer_of result (pool_of pool.new) links.new rows.new;
        }
        ≡ admit_logged
        (record {
          pool = pool_of pool.old;
          bytes = log.old;
          records = records.old;
          store = store.old;
          groups = groups;
          links = links.old;
          rows = rows.old;
          keys = keys;
          actors = actors;
        })
        name.now body.now }
{
    let mut counters = state::counters(pool);
    let id = LogId(counters.next);
    let order = wal::append(&mut counters, log, records, name, body)?;
    let message = Arrival {
        name,
        body,
        caller: None,
        id: Some(id),
    };
    entry::keep(store, links, rows, message, lists::INBOX);
    state::set_log(
        pool,
        counters,
        state::waits(order, u64::from(What::Record), 0),
    );
    Ok(Accepted::Open)
}

// A caller's message is not logged.
fn admit_called(
    pool: &mut PoolCells,
    store: &mut [u8],
    links: &mut [LinkRow],
    rows: &mut [MessageRow],
    name: &[u8],
    body: &[u8],
    caller: CallerId,
) -> Called
    ensures { (bytes : List ℕ) (records groups keys actors : Table) →
        record {
          state = record {
            pool = pool_of pool.new;
            bytes = bytes;
            records = records;
            store = store.new;
            groups = groups;
            links = links.new;
            rows = rows.new;
            keys = keys;
            actors = actors;
          };
          answer = answer_of result (pool_of pool.new) links.new rows.new;
        }
        ≡ admit_called
        (record {
          pool = pool_of pool.old;
          bytes = bytes;
          records = records;
          store = store.old;
          groups = groups;
          links = links.old;
          rows = rows.old;
          keys = keys;
          actors = actors;
        })
        name.now body.now caller }
{
    let message = Arrival {
        name,
        body,
        caller: Some(caller),
        id: None,
    };
    entry::keep(store, links, rows, message, lists::INBOX);
    Ok(Accepted::Open)
}

// A message for the program of a group.
pub fn admit(
    pool: &mut PoolCells,
    log: &mut [u8],
    records: &mut [RecordRow],
    store: &mut [u8],
    groups: &[GroupRow],
    links: &mut [LinkRow],
    rows: &mut [MessageRow],
    name: &[u8],
    body: &[u8],
    caller: Option<CallerId>,
) -> Called
    ensures { (keys actors : Table) →
        record {
          state = record {
            pool = pool_of pool.new;
            bytes = log.new;
            records = records.new;
            store = store.new;
            groups = groups.now;
            links = links.new;
            rows = rows.new;
            keys = keys;
            actors = actors;
          };
          answer = answer_of result (pool_of pool.new) links.new rows.new;
        }
        ≡ admit_of
        (record {
          pool = pool_of pool.old;
          bytes = log.old;
          records = records.old;
          store = store.old;
          groups = groups.now;
          links = links.old;
          rows = rows.old;
          keys = keys;
          actors = actors;
        })
        name.now body.now caller }
{
    refusals::admit_check(pool, groups, links, name, body)?;
    match caller {
        Some(who) => admit_called(pool, store, links, rows, name, body, who),
        None => admit_logged(pool, log, records, store, links, rows, name, body),
    }
}
