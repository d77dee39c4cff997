// The log's steps: append, mark, retry and sync, on the counters that are lent by `&mut`.
// Kept: the counters, the log and the table stay three parameters. Each method of a struct that holds the three would
// say in addition, of each, that it still holds the same reference, and the calls, which lend them one by one, would
// make it and take it apart.
ghost use Rattle.std.specs.Prelude.{◌≡◌, Some, Ok, [], ◌+◌, ◌-◌, ◌≤◌, length, get_or, set};
ghost use Rattle.text.specs.Format.{untried};
ghost use Rattle.message_log.specs.Log.{state, row, row_at, row_len, row_tries, row_span, CanAppend, new_message, logged};
ghost use Rattle.message_log.specs.Log.{appended, append_of, without_row, keeps, all_anew, marked_done, mark_of};
ghost use Rattle.message_log.specs.Log.{retry_written, retried_at, counts_tries, retry_of, sync_log};

use crate::rewrite::{compact, fits_behind, tries_len};
use crate::table::{close_row, search_row, set_row};
use crate::{BODY, Counters, LogId, NAME, Order, RecordRow, Refusal};
use text::line::ATTEMPTS;
use text::record::{done_len, encode_done, encode_record, encode_retry, record_len, retry_len};

// The record of a message behind the file's bytes, its row behind the others, and the counters after it.
fn put_record(
    counters: &mut Counters,
    log: &mut [u8],
    records: &mut [RecordRow],
    len: usize,
    name: &[u8],
    body: &[u8],
)
    requires { CanAppend (state log.old records.old counters.old)
        (new_message (state log.old records.old counters.old) name.now body.now) len
        × (counters.old.size + len ≤ length log.old) }
    ensures { state log.new records.new counters.new
        ≡ logged (state log.old records.old counters.old)
        (untried counters.old.next name.now body.now) }
{
    let size = counters.size;
    encode_record(&mut log[size..], counters.next, name, body);
    set_row(records, counters.count, counters.next, size, len, 0);
    counters.next += 1;
    counters.live += len;
    counters.size += len;
    counters.dirty = true;
    counters.count += 1;
}

// A message that is not turned away: its record behind the others, or, for lack of room, behind the open ones alone.
fn append_record(
    counters: &mut Counters,
    log: &mut [u8],
    records: &mut [RecordRow],
    len: usize,
    name: &[u8],
    body: &[u8],
) -> Order
    requires { CanAppend (state log.old records.old counters.old)
        (new_message (state log.old records.old counters.old) name.now body.now) len }
    ensures { record { wal = state log.new records.new counters.new; answer = Ok result }
        ≡ appended (state log.old records.old counters.old)
        (untried counters.old.next name.now body.now) }
{
    let size = counters.size;
    if fits_behind(size, len, log.len()) {
        put_record(counters, log, records, len, name, body);
        return Order::Append(size, size + len);
    }
    let live = counters.live;
    compact(log, records, counters.count);
    counters.size = live;
    put_record(counters, log, records, len, name, body);
    Order::Replace(live + len)
}

// Logs a message under the next id, or turns it away with the lowest number that applies.
pub fn append(
    counters: &mut Counters,
    log: &mut [u8],
    records: &mut [RecordRow],
    name: &[u8],
    body: &[u8],
) -> Result<Order, Refusal>
    ensures { record { wal = state log.new records.new counters.new; answer = result }
        ≡ append_of (state log.old records.old counters.old)
        name.now body.now }
{
    if NAME < name.len() || BODY < body.len() {
        return Err(Refusal::TooLong);
    }
    if records.len() <= counters.count {
        return Err(Refusal::Full);
    }
    if counters.next == u64::MAX {
        return Err(Refusal::NoId);
    }
    let room = log.len().checked_sub(counters.live).ok_or(Refusal::NoRoom)?;
    let len = record_len(counters.next, name, body, room).ok_or(Refusal::NoRoom)?;
    Ok(append_record(counters, log, records, len, name, body))
}

// A length less those of a row's record and retry line; where there is no such row, the length itself.
#[tactic(auto, unfolding(text::specs::Format::attempts_line))]
fn less_span(live: usize, records: &[RecordRow], i: usize) -> usize
    ensures { result ≡ live - row_span (get_or records.now i []) }
{
    match records.get(i) {
        Some(r) => live
            .saturating_sub(r[2] as usize)
            .saturating_sub(tries_len(r[0], r[3])),
        None => live,
    }
}

// The row of a message that is done taken out, and the counters after it.
#[tactic(auto, unfolding(crate::specs::Log::without_row))]
fn take_record(counters: &mut Counters, records: &mut [RecordRow], i: usize)
    ensures { state [] records.new counters.new ≡ without_row (state [] records.old counters.old) i }
{
    counters.live = less_span(counters.live, records, i);
    close_row(records, i, counters.count);
    counters.count = counters.count.saturating_sub(1);
}

// Whether a done line of n bytes is appended behind `size`: it fits, and the log does not reach the limit.
fn keeps_on(size: usize, n: usize, long: usize, limit: usize, live: usize) -> bool
    ensures { result ≡ keeps limit long live (size + n) }
{
    if !fits_behind(size, n, long) {
        return false;
    }
    let to = size + n;
    to < limit || to / 2 < live
}

// The log rewritten to its open records and their retry lines, and a replace by these.
fn rewrite_all(counters: &mut Counters, log: &mut [u8], records: &mut [RecordRow]) -> Order
    ensures { record { wal = state log.new records.new counters.new; due = Some result }
        ≡ all_anew (state log.old records.old counters.old) }
{
    compact(log, records, counters.count);
    counters.size = counters.live;
    Order::Replace(counters.live)
}

// The done line behind the others, or the log rewritten to the open records.
fn mark_done(
    counters: &mut Counters,
    log: &mut [u8],
    records: &mut [RecordRow],
    limit: usize,
    id: u64,
) -> Order
    ensures { record { wal = state log.new records.new counters.new; due = Some result }
        ≡ marked_done limit (state log.old records.old counters.old) id }
{
    let size = counters.size;
    let n = done_len(id);
    if keeps_on(size, n, log.len(), limit, counters.live) {
        encode_done(&mut log[size..], id);
        counters.size += n;
        return Order::Append(size, counters.size);
    }
    rewrite_all(counters, log, records)
}

// Marks a message done; an id that is not open does nothing.
pub fn mark(
    counters: &mut Counters,
    log: &mut [u8],
    records: &mut [RecordRow],
    limit: usize,
    id: LogId,
) -> Option<Order>
    ensures { record { wal = state log.new records.new counters.new; due = result }
        ≡ mark_of limit (state log.old records.old counters.old) id.0 }
{
    let i = search_row(records, counters.count, id.0)?;
    take_record(counters, records, i);
    Some(mark_done(counters, log, records, limit, id.0))
}

// A length less that of a row's retry line; where there is no such row, the length itself.
#[tactic(auto, unfolding(text::specs::Format::attempts_line))]
fn less_tries(live: usize, records: &[RecordRow], i: usize) -> usize
    ensures { result ≡ live - length (row_tries (get_or records.now i [])) }
{
    match records.get(i) {
        Some(r) => live.saturating_sub(tries_len(r[0], r[3])),
        None => live,
    }
}

// A row with other attempts, where there is one at that place.
fn set_tried(records: &mut [RecordRow], i: usize, id: u64, attempts: u64)
    ensures { records.new
        ≡ set records.old i
        (row id (row_at (get_or records.old i [])) (row_len (get_or records.old i [])) attempts) }
{
    if i < records.len() {
        let r = records[i];
        records[i] = [id, r[1], r[2], attempts];
    }
}

// The retry line behind the file's bytes, or the log rewritten with it. The row has the attempts already.
fn write_retry(
    counters: &mut Counters,
    log: &mut [u8],
    records: &mut [RecordRow],
    id: u64,
    attempts: u64,
) -> Order
    ensures { record { wal = state log.new records.new counters.new; due = Some result }
        ≡ retry_written (state log.old records.old counters.old) id attempts }
{
    let size = counters.size;
    let n = retry_len(id, attempts);
    if fits_behind(size, n, log.len()) {
        encode_retry(&mut log[size..], id, attempts);
        counters.size += n;
        return Order::Append(size, counters.size);
    }
    rewrite_all(counters, log, records)
}

// The retry of an open id, its row at place i: written, if the open records and their retry lines then fit.
fn retry_at(
    counters: &mut Counters,
    log: &mut [u8],
    records: &mut [RecordRow],
    id: u64,
    attempts: u64,
    i: usize,
) -> Option<Order>
    ensures { record { wal = state log.new records.new counters.new; due = result }
        ≡ retried_at (state log.old records.old counters.old) id attempts i }
{
    let n = retry_len(id, attempts);
    let rest = less_tries(counters.live, records, i);
    if !fits_behind(rest, n, log.len()) {
        return None;
    }
    set_tried(records, i, id, attempts);
    counters.live = rest + n;
    Some(write_retry(counters, log, records, id, attempts))
}

// Whether a retry line may say this number.
#[tactic(auto, unfolding(crate::specs::Log::counts_tries))]
fn counts_tries(attempts: u64) -> bool
    ensures { result ≡ counts_tries attempts }
{
    attempts != 0 && attempts <= ATTEMPTS
}

// Writes how often a message was tried; for an id that is not open, and of 0 or more than 255, it does nothing.
pub fn retry(
    counters: &mut Counters,
    log: &mut [u8],
    records: &mut [RecordRow],
    id: LogId,
    attempts: u64,
) -> Option<Order>
    ensures { record { wal = state log.new records.new counters.new; due = result }
        ≡ retry_of (state log.old records.old counters.old) id.0 attempts }
{
    if !counts_tries(attempts) {
        return None;
    }
    let i = search_row(records, counters.count, id.0)?;
    retry_at(counters, log, records, id.0, attempts, i)
}

// Orders a flush, where a record was appended since the last one.
#[tactic(auto, unfolding(crate::specs::Log::sync_log))]
pub fn sync(counters: &mut Counters) -> Option<Order>
    ensures { record { counters = counters.new; due = result } ≡ sync_log counters.old }
{
    if !counters.dirty {
        return None;
    }
    counters.dirty = false;
    Some(Order::Flush)
}
