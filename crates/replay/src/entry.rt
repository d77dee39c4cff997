// An entry of the output: the answer and the counters; the message that the answer shows; and, as far as they are
// asked for, the log, the tables and the store.
ghost use Rattle.std.specs.Prelude.{◌≡◌};
ghost use Rattle.turn.specs.Words.{pool_of};
ghost use Rattle.answers.specs.Answers.{answer_of};
ghost use Rattle.replay.specs.Entry.{
  entry_numbers,
  output_texts,
  output_message,
  output_log,
  output_tables,
  output_store,
  output_entry,
};
ghost use Rattle.replay.specs.Replay.{lent_state};
ghost use Rattle.wire.specs.Output.{output};
ghost use Rattle.wire.specs.Number.{numbers};

use crate::play::Tables;
use actor::message::MessageRow;
use actor::part;
use actor::part::Span;
use actor::state::ActorRow;
use answers::answer::Called;
use answers::numbers::AnswerNumbers;
use answers::{answer, numbers};
use group::settings::GroupRow;
use lists::LinkRow;
use lists::keys::KeyRow;
use message_log::RecordRow;
use turn::state;
use turn::state::PoolCells;
use wire::output;
use wire::output::Done;

// Two texts, with a 1 and their lengths before them.
fn output_texts(out: &mut [u8], d: Done, name: &[u8], body: &[u8]) -> Done
    ensures { record { out = out.new; at = result.at; code = result.code }
        ≡ output_texts (record { out = out.old; at = d.at; code = d.code })
        name.now body.now }
{
    let lengths = [1, name.len() as u64, body.len() as u64];
    let a = output::output_numbers(out, d, &lengths);
    let b = output::output_bytes(out, a, name);
    output::output_bytes(out, b, body)
}

// The message that an answer shows, from its part of the body store.
fn output_message(
    out: &mut [u8],
    d: Done,
    m: Option<usize>,
    rows: &[MessageRow],
    store: &[u8],
) -> Done
    ensures { record { out = out.new; at = result.at; code = result.code }
        ≡ output_message (record { out = out.old; at = d.at; code = d.code }) m
        rows.now store.now }
{
    match m {
        None => output::output_numbers(out, d, &[0]),
        Some(_) => {
            let shown = part::message_part(rows, m);
            output_texts(
                out,
                d,
                part::bytes_in(store, shown.name),
                part::bytes_in(store, shown.body),
            )
        }
    }
}

// The file.
fn output_log(out: &mut [u8], d: Done, show: u64, log: &[u8], size: usize) -> Done
    ensures { record { out = out.new; at = result.at; code = result.code }
        ≡ output_log show (record { out = out.old; at = d.at; code = d.code }) log.now size }
{
    if show < 1 {
        return d;
    }
    output::output_bytes(out, d, part::bytes_in(log, Span { from: 0, to: size }))
}

// The tables.
// Kept: each table is a parameter, since the definition `output_tables` says of each by itself how it goes out.
fn output_tables(
    out: &mut [u8],
    d: Done,
    show: u64,
    records: &[RecordRow],
    groups: &[GroupRow],
    links: &[LinkRow],
    rows: &[MessageRow],
    keys: &[KeyRow],
    actors: &[ActorRow],
) -> Done
    ensures { record { out = out.new; at = result.at; code = result.code }
        ≡ output_tables show (record { out = out.old; at = d.at; code = d.code })
        (record {
          records = records.now;
          groups = groups.now;
          links = links.now;
          rows = rows.now;
          keys = keys.now;
          actors = actors.now;
        }) }
{
    if show < 2 {
        return d;
    }
    let a = output::output_rows(out, d, records);
    let b = output::output_rows(out, a, groups);
    let c = output::output_rows(out, b, links);
    let e = output::output_rows(out, c, rows);
    let f = output::output_keys(out, e, keys);
    output::output_rows(out, f, actors)
}

// The body store.
fn output_store(out: &mut [u8], d: Done, show: u64, store: &[u8]) -> Done
    ensures { record { out = out.new; at = result.at; code = result.code }
        ≡ output_store show (record { out = out.old; at = d.at; code = d.code }) store.now }
{
    if show < 3 {
        return d;
    }
    output::output_bytes(out, d, store)
}

// The answer and the counters.
fn output_head(out: &mut [u8], d: Done, s: &AnswerNumbers, pool: &PoolCells) -> Done
    ensures { record { out = out.new; at = result.at; code = result.code }
        ≡ output (record { out = out.old; at = d.at; code = d.code })
        (numbers (entry_numbers s.now (pool_of pool.now))) }
{
    let counters = state::counters(pool);
    let losses = state::losses(pool);
    let head = [
        s.kind,
        s.a,
        s.b,
        s.c,
        counters.next,
        counters.live as u64,
        counters.size as u64,
        numbers::flag(counters.dirty),
        counters.count as u64,
        state::queued(pool),
        losses.dead,
        losses.crashes,
    ];
    output::output_numbers(out, d, &head)
}

// An entry.
pub(crate) fn output_entry(
    out: &mut [u8],
    d: Done,
    show: u64,
    called: Called,
    t: &Tables,
    log: &[u8],
    store: &[u8],
) -> Done
    ensures { record { out = out.new; at = result.at; code = result.code }
        ≡ output_entry show (record { out = out.old; at = d.at; code = d.code })
        (record {
          state = lent_state t.now log.now store.now;
          answer = answer_of called (pool_of t.now.pool) t.now.links t.now.rows;
        }) }
{
    let s = numbers::numbers_of(answer::answer_of(called, &t.pool, &t.links, &t.rows));
    let size = state::counters(&t.pool).size;
    let a = output_head(out, d, &s, &t.pool);
    let b = output_message(out, a, s.message, &t.rows, store);
    let c = output_log(out, b, show, log, size);
    let e = output_tables(
        out, c, show, &t.records, &t.groups, &t.links, &t.rows, &t.keys, &t.actors,
    );
    output_store(out, e, show, store)
}
