// Opening: a file is read with a table of rows and decided on before anything is written; then what is left goes into
// the store, and from there into the log.
// Kept: what is lent, and how many rows or bytes of it are in use, stay parameters. `open_log` is called with tables
// and numbers of any size, and says by `sized` which it refuses; the functions below it take two or three of them, and
// hardly two functions the same ones.
ghost use Rattle.std.specs.Prelude.{◌≡◌, true, map, suc, ◌+◌, ◌-◌, ◌^◌, ◌≤◌, ◌<◌, max, length, take};
ghost use Rattle.text.specs.Bytes.{write};
ghost use Rattle.text.specs.Line.{read_line, name_of, body_of, line_at};
ghost use Rattle.message_log.specs.Opening.{read_file, all_fit, image};
ghost use Rattle.message_log.specs.Opened.{sized, stored, left_row, no_counters, opened_log_by, open_log};
ghost use Rattle.message_log.specs.Scan.{row_messages, RowsRise, PlaceOf, holds, Took, pass_rows, remove_row};
ghost use Rattle.message_log.specs.Scan.{retry_row, TookLine, Scanned, LeftIn, Accepted, Decided};
ghost use Rattle.message_log.specs.Scan.{fit_line, fit_left, from_store, imaged, lengths_of};
ghost use Rattle.message_log.specs.Log.{row};

use crate::rewrite::put_tries;
use crate::table::{close_row, open_row, search_row, set_row};
use crate::{Answered, BODY, Counters, ENTRY, NAME, Order, RECORDS, RecordRow, Refusal, STORE};
use text::escape::{copy_field, field_fits};
use text::line::{LineKind, body_field, line_kind, name_field};
use text::lines::{Lines, line_at};
use text::record::encode_record;

// A row of what an opening left, as it is lent: the id of a message, the lengths of its name and of its body, and its
// attempts.
pub type LeftRow = [u64; 4];

// A pass over the file: the rows in use, the id from which on rows were let go, and the next id so far.
#[derive(Clone, Copy)]
pub(crate) struct Pass {
    pub count: usize,
    pub hi: u64,
    pub next: u64,
}

// The rows of all messages left are the first `count`, and the next id is `next`.
#[derive(Clone, Copy)]
pub(crate) struct Kept {
    pub count: usize,
    pub next: u64,
}

// The lengths of a name and a body.
#[derive(Clone, Copy)]
pub(crate) struct Lengths {
    pub name: usize,
    pub body: usize,
}

// The first place whose id is not below: searched from the end, since ids mostly rise.
fn row_place(rows: &[RecordRow], count: usize, id: u64) -> usize
    requires { (count ≤ length rows.now) × RowsRise 0 (take count rows.now) (2 ^ 64) }
    ensures { PlaceOf (take count rows.now) id result }
{
    for i in (0..count).rev() {
        if rows[i][0] < id {
            return i + 1;
        }
    }
    0
}

// Whether the row at a place is in use and has this id.
#[tactic(auto, using(crate::proofs::RowLaws::holds_is, crate::proofs::RowLaws::holds_not))]
fn row_is(rows: &[RecordRow], i: usize, count: usize, id: u64) -> bool
    requires { count ≤ length rows.now }
    ensures { result ≡ holds (take count rows.now) i id }
{
    i < count && rows[i][0] == id
}

// A record taken in, where its id is in the window. A full table lets its largest id go.
fn put_row(rows: &mut [RecordRow], p: Pass, lo: u64, id: u64, at: usize) -> Pass
    requires { (p.count ≤ length rows.old) × (0 < length rows.old)
        × RowsRise lo (pass_rows p rows.old) p.hi }
    ensures within { result.count ≤ length rows.new }
    ensures took { Took lo p.hi (pass_rows p rows.old) (row id at 0 0) result.hi
        (pass_rows result rows.new) }
    ensures next { result.next ≡ p.next }
{
    if id < lo || p.hi <= id {
        return p;
    }
    let count = p.count;
    let e = [id, at as u64, 0, 0];
    let i = row_place(rows, count, id);
    if row_is(rows, i, count, id) {
        rows[i] = e;
        return p;
    }
    if count < rows.len() {
        open_row(rows, i, count, e);
        return Pass {
            count: count + 1,
            ..p
        };
    }
    if count <= i {
        return Pass { hi: id, ..p };
    }
    let last = count - 1;
    let top = rows[last][0];
    open_row(rows, i, last, e);
    Pass { hi: top, ..p }
}

// A done line taken in.
fn take_row(rows: &mut [RecordRow], p: Pass, id: u64) -> Pass
    requires { (p.count ≤ length rows.old) × RowsRise 0 (pass_rows p rows.old) (2 ^ 64) }
    ensures within { result.count ≤ length rows.new }
    ensures out { pass_rows result rows.new ≡ remove_row id (pass_rows p rows.old) }
    ensures same { (result.hi ≡ p.hi) × (result.next ≡ p.next) }
{
    let count = p.count;
    let Some(i) = search_row(rows, count, id) else {
        return p;
    };
    close_row(rows, i, count);
    Pass {
        count: count - 1,
        ..p
    }
}

// A retry line taken in: the row of its id, where there is one, has its attempts.
fn retry_row(rows: &mut [RecordRow], count: usize, id: u64, attempts: u64)
    requires { (count ≤ length rows.old) × RowsRise 0 (take count rows.old) (2 ^ 64) }
    ensures { take count rows.new ≡ retry_row id attempts (take count rows.old) }
{
    let Some(i) = search_row(rows, count, id) else {
        return;
    };
    let r = rows[i];
    rows[i] = [r[0], r[1], r[2], attempts];
}

// The next id after a record.
fn next_after(n: u64, id: u64) -> u64
    requires { id < 2 ^ 64 - 1 }
    ensures { result ≡ max n (suc id) }
{
    n.max(id + 1)
}

// What the line that begins at a place says, taken in.
fn pass_line(rows: &mut [RecordRow], p: Pass, lo: u64, line: &[u8], at: usize) -> Option<Pass>
    requires { (p.count ≤ length rows.old) × (0 < length rows.old)
        × RowsRise lo (pass_rows p rows.old) p.hi }
    ensures { TookLine lo p rows.old (read_line line.now) at result rows.new }
{
    match line_kind(line) {
        LineKind::Put { id, .. } => {
            if id == u64::MAX {
                return None;
            }
            let next = next_after(p.next, id);
            Some(put_row(rows, Pass { next, ..p }, lo, id, at))
        }
        LineKind::Done(id) => Some(take_row(rows, p, id)),
        LineKind::Retry { id, attempts } => {
            retry_row(rows, p.count, id, attempts);
            Some(p)
        }
        LineKind::Other => Some(p),
    }
}

// One pass over the file, by one reader: the rows of the messages left with ids from lo on, as far as the table goes,
// and the next id.
fn scan(rows: &mut [RecordRow], file: &[u8], lo: u64) -> Option<Pass>
    requires { (0 < length rows.old) × (lo < 2 ^ 64 - 1) }
    ensures { Scanned file.now lo result rows.new }
{
    let mut p = Pass {
        count: 0,
        hi: u64::MAX,
        next: 0,
    };
    for (from, to) in Lines::new(file, 0) {
        p = pass_line(rows, p, lo, &file[from..to], from)?;
    }
    Some(p)
}

// The rows of the messages left: one pass where the file never has more than 257 open records, else further ones from
// where the last left off.
// Kept: a `loop`, since it counts nothing: each pass says where the next one begins, or that it was the last.
fn left_rows(rows: &mut [RecordRow], file: &[u8]) -> Result<Kept, Refusal>
    requires { length rows.old ≡ 257 }
    ensures { LeftIn file.now result rows.new }
{
    let mut count: usize = 0;
    let mut lo: u64 = 0;
    loop {
        let p = scan(&mut rows[count..], file, lo).ok_or(Refusal::LastId)?;
        count += p.count;
        if RECORDS < count {
            return Err(Refusal::TooMuch);
        }
        if p.hi == u64::MAX {
            return Ok(Kept {
                count,
                next: p.next,
            });
        }
        lo = p.hi;
    }
}

// Whether the name and the body of the line at a place are within the limits.
fn row_fits(file: &[u8], at: usize) -> bool
    ensures { result ≡ fit_line (line_at file.now at) }
{
    let line = line_at(file, at);
    field_fits(name_field(line), NAME) && field_fits(body_field(line), BODY)
}

fn rows_fit(file: &[u8], rows: &[RecordRow]) -> bool
    ensures { result ≡ all_fit (row_messages file.now rows.now) }
{
    rows.iter().all(|r| row_fits(file, r[1] as usize))
}

// Accepted or not: nothing has been written yet.
fn decide(rows: &mut [RecordRow], file: &[u8]) -> Result<Kept, Refusal>
    requires { length rows.old ≡ 257 }
    ensures { Decided file.now result rows.new }
{
    let kept = left_rows(rows, file)?;
    if !rows_fit(file, &rows[..kept.count]) {
        return Err(Refusal::TooMuch);
    }
    Ok(kept)
}

// The name and the body of the line at a place, unescaped, into the entry of the store that begins at `base`.
fn copy_row(file: &[u8], at: usize, store: &mut [u8], base: usize) -> Lengths
    requires { (base + 160 ≤ length store.old) × (fit_line (line_at file.now at) ≡ true) }
    ensures lengths { result
        ≡ lengths_of (name_of (line_at file.now at)) (body_of (line_at file.now at)) }
    ensures copied { store.new
        ≡ write (write store.old base (name_of (line_at file.now at))) (base + 32)
        (body_of (line_at file.now at)) }
{
    let line = line_at(file, at);
    let name = copy_field(&mut store[base..], name_field(line)).unwrap_or(0);
    let body = copy_field(&mut store[base + NAME..], body_field(line)).unwrap_or(0);
    Lengths { name, body }
}

// The messages of the rows into the entries of the store, in their order, and what is handed back of each.
fn store_rows(file: &[u8], rows: &[RecordRow], store: &mut [u8], left: &mut [LeftRow])
    requires { (length rows.now ≤ 256)
        × (length store.old ≡ 40960)
        × (length left.old ≡ 256)
        × (all_fit (row_messages file.now rows.now) ≡ true) }
    ensures store { store.new ≡ stored 0 (row_messages file.now rows.now) store.old }
    ensures left { left.new ≡ write left.old 0 (map left_row (row_messages file.now rows.now)) }
{
    for (i, r) in rows.iter().enumerate() {
        let l = copy_row(file, r[1] as usize, store, ENTRY * i);
        set_row(left, i, r[0], l.name, l.body, r[3]);
    }
}

// The records of the store's messages, each with its retry line behind it, written one behind the other from the first
// byte on, and their rows.
fn write_image(log: &mut [u8], records: &mut [RecordRow], store: &[u8], left: &[LeftRow]) -> usize
    requires { (length left.now ≤ 256)
        × (length store.now ≡ 40960)
        × (length records.old ≡ 256)
        × (fit_left left.now ≡ true)
        × (length (image (from_store 0 left.now store.now)) ≤ length log.old) }
    ensures { record { log = log.new; table = records.new; size = result }
        ≡ imaged log.old records.old (from_store 0 left.now store.now) }
{
    let mut p: usize = 0;
    for (i, x) in left.iter().enumerate() {
        let name = ENTRY * i;
        let body = name + NAME;
        let n = encode_record(
            &mut log[p..],
            x[0],
            &store[name..name + x[1] as usize],
            &store[body..body + x[2] as usize],
        )
        .unwrap_or(0);
        set_row(records, i, x[0], p, n, x[3]);
        p = put_tries(log, p + n, x[0], x[3]);
    }
    p
}

// Whether the lent sizes are right.
#[tactic(auto, unfolding(crate::specs::Opened::sized))]
fn sizes_fit(log: usize, n: usize, store: usize, table: usize, left: usize) -> bool
    ensures { result ≡ sized log n store table left }
{
    16 <= log && log <= 65536 && n <= log && store == STORE && table == RECORDS && left == RECORDS
}

// The counters where no log was opened.
const CLOSED: Counters = Counters {
    next: 0,
    live: 0,
    size: 0,
    dirty: false,
    count: 0,
};

fn closed(r: Refusal) -> Answered
    ensures { result ≡ record { counters = no_counters; answer = Err r } }
{
    Answered {
        counters: CLOSED,
        answer: Err(r),
    }
}

// An accepted file: what is left goes into the store, and from there into the log.
fn accept(
    log: &mut [u8],
    n: usize,
    store: &mut [u8],
    records: &mut [RecordRow],
    left: &mut [LeftRow],
    rows: &[RecordRow],
    kept: Kept,
) -> Answered
    requires { (sized (length log.old) n (length store.old) (length records.old) (length left.old) ≡ true)
        × (length rows.now ≡ 257)
        × Accepted (take n log.old) kept rows.now }
    ensures { record {
      log = log.new;
      store = store.new;
      table = records.new;
      left = left.new;
      step = result;
    }
        ≡ opened_log_by log.old store.old records.old left.old
        (read_file (take n log.old)) }
{
    let count = kept.count;
    store_rows(&log[..n], &rows[..count], store, left);
    let size = write_image(log, records, store, &left[..count]);
    let counters = Counters {
        next: kept.next,
        live: size,
        size,
        dirty: false,
        count,
    };
    Answered {
        counters,
        answer: Ok(Order::Replace(size)),
    }
}

// Opens the log whose file is the first n bytes: what is left goes into the store, the log is written anew, and for
// each entry of the store in use the id, the lengths of name and body, and the attempts are handed back.
pub fn open_log(
    log: &mut [u8],
    n: usize,
    store: &mut [u8],
    records: &mut [RecordRow],
    left: &mut [LeftRow],
) -> Answered
    ensures { record {
      log = log.new;
      store = store.new;
      table = records.new;
      left = left.new;
      step = result;
    }
        ≡ open_log log.old n store.old records.old left.old }
{
    if !sizes_fit(log.len(), n, store.len(), records.len(), left.len()) {
        return closed(Refusal::Sizes);
    }
    let mut rows = [[0u64; 4]; RECORDS + 1];
    match decide(&mut rows, &log[..n]) {
        Ok(kept) => accept(log, n, store, records, left, &rows, kept),
        Err(r) => closed(r),
    }
}
