// A script: its header, the opening, and its calls one after the other.
ghost use Rattle.std.specs.Prelude.{◌≡◌, ◌+◌, ◌≤◌, length};
ghost use Rattle.theorem.specs.Rail.{call_of};
ghost use Rattle.pool.specs.Open.{open_of};
ghost use Rattle.turn.specs.Words.{pool_of};
ghost use Rattle.answers.specs.Answers.{answer_of};
ghost use Rattle.replay.specs.Replay.{decoded, calls_at, play, blank, placed, lent_state, play_opened, play_script};

use crate::entry;
use actor::message::MessageRow;
use actor::state::ActorRow;
use answers::answer::Called;
use group::roster;
use group::settings::GroupRow;
use lists::LinkRow;
use lists::keys::KeyRow;
use message_log::{RECORDS, RecordRow};
use pool::{admit, calls, open};
use settings::ranges::Settings;
use turn::state::PoolCells;
use wire::output::Done;
use wire::script::{CallAt, Kind};
use wire::{output, script};

// The pool's cells and its tables, which a script runs on beside the lent log and store.
#[derive(Drop)]
pub struct Tables {
    pub pool: PoolCells,
    pub records: [RecordRow; RECORDS],
    pub groups: [GroupRow; lists::GROUPS],
    pub links: [LinkRow; lists::LISTS],
    pub rows: [MessageRow; lists::ENTRIES],
    pub keys: [KeyRow; roster::ROWS],
    pub actors: [ActorRow; lists::SLOTS],
}

// One call.
fn step(script: &[u8], call: CallAt, t: &mut Tables, log: &mut [u8], store: &mut [u8]) -> Called
    requires { (call.name ≤ call.body) × (call.body ≤ call.end) × (call.end ≤ length script.now) }
    ensures { record {
      state = lent_state t.new log.new store.new;
      answer = answer_of result (pool_of t.new.pool) t.new.links t.new.rows;
    }
        ≡ call_of
        (lent_state t.old log.old store.old)
        (decoded script.now call) }
{
    let name = &script[call.name..call.body];
    let body = &script[call.body..call.end];
    match call.kind {
        Kind::Admit(caller) => admit::admit(
            &mut t.pool,
            log,
            &mut t.records,
            store,
            &t.groups,
            &mut t.links,
            &mut t.rows,
            name,
            body,
            caller,
        ),
        Kind::Turn => calls::turn(
            &mut t.pool,
            log,
            &mut t.records,
            store,
            &t.groups,
            &mut t.links,
            &mut t.rows,
            &mut t.keys,
            &mut t.actors,
        ),
        Kind::Reply(reply) => calls::reply(
            &mut t.pool,
            log,
            &mut t.records,
            store,
            &t.groups,
            &mut t.links,
            &mut t.rows,
            &mut t.keys,
            &mut t.actors,
            reply,
            name,
            body,
        ),
        Kind::Sync => calls::sync(&mut t.pool),
        Kind::Close => calls::close(&mut t.pool),
    }
}

// The calls from `start` on.
// Kept: a `while`, since it counts nothing: each call says where the next one begins, and the output whether to go on.
fn run_calls(
    script: &[u8],
    start: usize,
    show: u64,
    t: &mut Tables,
    log: &mut [u8],
    store: &mut [u8],
    out: &mut [u8],
    d: Done,
) -> Done
    ensures { record {
      bytes = log.new;
      store = store.new;
      output = record { out = out.new; at = result.at; code = result.code };
    }
        ≡ play show
        (lent_state t.old log.old store.old)
        (record { out = out.old; at = d.at; code = d.code })
        (calls_at (length script.now) script.now start) }
{
    let mut p = start;
    let mut e = d;
    while e.code == 0 {
        if script.len() <= p {
            return e;
        }
        let Some(call) = script::read_call(script, p) else {
            return Done { at: e.at, code: 1 };
        };
        p = call.end;
        let called = step(script, call, t, log, store);
        e = entry::output_entry(out, e, show, called, t, log, store);
    }
    e
}

// The opening, and what follows it.
// Kept: `n` is the file's length within the log, which is lent whole, as `open` takes it.
fn run_opened(
    script: &[u8],
    start: usize,
    show: u64,
    settings: Settings,
    given: &[GroupRow],
    n: usize,
    t: &mut Tables,
    log: &mut [u8],
    store: &mut [u8],
    out: &mut [u8],
    d: Done,
) -> Done
    ensures { record {
      bytes = log.new;
      store = store.new;
      output = record { out = out.new; at = result.at; code = result.code };
    }
        ≡ play_opened show script.now start
        (open_of (record {
          settings = settings;
          groups_given = given.now;
          bytes = log.old;
          size = n;
          store = store.old;
          records = t.old.records;
          groups = t.old.groups;
          links = t.old.links;
          rows = t.old.rows;
          keys = t.old.keys;
          actors = t.old.actors;
        }))
        (record { out = out.old; at = d.at; code = d.code }) }
{
    let called = open::open(
        &mut t.pool,
        settings,
        given,
        log,
        n,
        store,
        &mut t.records,
        &mut t.groups,
        &mut t.links,
        &mut t.rows,
        &mut t.keys,
        &t.actors,
    );
    let goes_on = called.is_ok();
    let e = entry::output_entry(out, d, show, called, t, log, store);
    if goes_on {
        return run_calls(script, start, show, t, log, store, out, e);
    }
    e
}

// The file into the log's first bytes, if it fits.
// Kept: a place and a length beside the script, as the definition `placed` takes them.
fn place_file(log: &mut [u8], script: &[u8], from: usize, n: usize)
    requires { from + n ≤ length script.now }
    ensures { log.new ≡ placed script.now from n log.old }
{
    output::output_bytes(log, Done { at: 0, code: 0 }, &script[from..from + n]);
}

// A whole script. What is lent beside log and store is blank.
pub(crate) fn play(
    script: &[u8],
    log: &mut [u8],
    store: &mut [u8],
    out: &mut [u8],
    given: &mut [GroupRow],
    t: &mut Tables,
) -> Done
    requires { (given.old ≡ blank 16 37) × (t.old.records ≡ blank 256 4) × (t.old.groups ≡ blank 8 37)
        × (t.old.links ≡ blank 262 4)
        × (t.old.rows ≡ blank 256 7) × (t.old.keys ≡ blank 34 65) × (t.old.actors ≡ blank 128 12) }
    ensures { record {
      bytes = log.new;
      store = store.new;
      output = record { out = out.new; at = result.at; code = result.code };
    }
        ≡ play_script script.now log.old store.old
        (record { out = out.old; at = 8; code = 0 }) }
{
    let Some(h) = script::read_header(script) else {
        return Done { at: 8, code: 1 };
    };
    if log.len() != h.long || store.len() != h.stored {
        return Done { at: 8, code: 3 };
    }
    script::read_groups(script, h.groups, given);
    place_file(log, script, h.file, h.n);
    run_opened(
        script,
        h.file + h.n,
        h.show,
        h.settings,
        &given[..h.groups],
        h.n,
        t,
        log,
        store,
        out,
        Done { at: 8, code: 0 },
    )
}
