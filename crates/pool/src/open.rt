// An opening: refused by its table; else the tables at the start, and the messages left in pending.
// Kept: the tables stay parameters, since the body store and the groups are written, which a `Rail` lends only to be
// read; and `open` is public, where the host lends each table by itself.
ghost use Rattle.std.specs.Prelude.{◌≡◌};
ghost use Rattle.turn.specs.Words.{pool_of};
ghost use Rattle.answers.specs.Answers.{answer_of};
ghost use Rattle.pool.specs.Open.{limits_from, no_pool, filled_by, open_of};

use actor::message::MessageRow;
use actor::state::ActorRow;
use answers::answer::{Accepted, Called, Refusal};
use answers::refusals;
use group::settings::GroupRow;
use lists::LinkRow;
use lists::keys::KeyRow;
use message_log::opening::LeftRow;
use message_log::{Counters, Order, RECORDS, RecordRow, opening};
use settings::ranges::Settings;
use settings::{ranges, tables};
use turn::state;
use turn::state::{Limits, PoolCells, What};

fn limits_from(s: Settings, groups: usize) -> Limits
    ensures { result ≡ limits_from s groups }
{
    Limits {
        groups,
        inbox: s.inbox,
        backlog: s.backlog,
        compact_at: s.compact_at as usize,
        tick: s.tick,
    }
}

// An opening that is turned away: the pool takes no call.
fn no_pool(pool: &mut PoolCells)
    ensures { pool_of pool.new ≡ no_pool }
{
    state::start(
        pool,
        Limits {
            groups: 0,
            inbox: 0,
            backlog: 0,
            compact_at: 0,
            tick: 0,
        },
        Counters {
            next: 0,
            live: 0,
            size: 0,
            dirty: false,
            count: 0,
        },
        state::failed(),
    );
}

// The log is opened: the tables at the start, and the messages left in pending.
fn open_pool(
    pool: &mut PoolCells,
    settings: Settings,
    given: &[GroupRow],
    left: &[LeftRow],
    counters: Counters,
    order: Order,
    groups: &mut [GroupRow],
    links: &mut [LinkRow],
    rows: &mut [MessageRow],
    keys: &mut [KeyRow],
) -> Called
    ensures { record {
      groups = groups.new;
      links = links.new;
      rows = rows.new;
      keys = keys.new;
      pool = pool_of pool.new;
      answer = answer_of result (pool_of pool.new) links.new rows.new;
    }
        ≡ filled_by
        (record { settings = settings; given = given.now; left = left.now; counters = counters })
        order
        (record {
          groups = groups.old;
          links = links.old;
          rows = rows.old;
          keys = keys.old;
        }) }
{
    ranges::put_groups(groups, given, settings.max_actors);
    lists::start(links);
    tables::put_left(links, rows, left, counters.count);
    tables::blank_keys(keys);
    state::start(
        pool,
        limits_from(settings, given.len()),
        counters,
        state::waits(order, u64::from(What::Nothing), 0),
    );
    Ok(Accepted::Open)
}

// Opens a pool on the first n bytes of the log.
// Kept: the length of the file beside the log, since any length is promised an answer, and one past the log a refusal.
pub fn open(
    pool: &mut PoolCells,
    settings: Settings,
    given: &[GroupRow],
    log: &mut [u8],
    n: usize,
    store: &mut [u8],
    records: &mut [RecordRow],
    groups: &mut [GroupRow],
    links: &mut [LinkRow],
    rows: &mut [MessageRow],
    keys: &mut [KeyRow],
    actors: &[ActorRow],
) -> Called
    ensures { record {
      state = record {
        pool = pool_of pool.new;
        bytes = log.new;
        records = records.new;
        store = store.new;
        groups = groups.new;
        links = links.new;
        rows = rows.new;
        keys = keys.new;
        actors = actors.now;
      };
      answer = answer_of result (pool_of pool.new) links.new rows.new;
    }
        ≡ open_of
        (record {
          settings = settings;
          groups_given = given.now;
          bytes = log.old;
          size = n;
          store = store.old;
          records = records.old;
          groups = groups.old;
          links = links.old;
          rows = rows.old;
          keys = keys.old;
          actors = actors.now;
        }) }
{
    if let Err(r) = refusals::open_check(settings, given, groups, links, rows, keys, actors) {
        no_pool(pool);
        return Err(r);
    }
    let mut left = [[0u64; 4]; RECORDS];
    let s = opening::open_log(log, n, store, records, &mut left);
    match s.answer {
        Ok(order) => open_pool(
            pool, settings, given, &left, s.counters, order, groups, links, rows, keys,
        ),
        Err(r) => {
            no_pool(pool);
            Err(Refusal::from(r))
        }
    }
}
