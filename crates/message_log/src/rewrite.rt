// The rewrite: the log's first bytes become its open records in their order, each with its retry line directly behind
// it. It goes by the table, in place and with no bytes to spare: first the records move down, one behind the other;
// then, from the last one on, each moves up to its place, and its retry line is printed behind it.
// Kept: `pack` and `spread` take the whole table and the number of its rows in use, as in table.rt. Of a slice of
// these rows they would say less, and `compact` would have to say again of the table that the other rows stay, since
// the definition `rewrite` speaks of the whole.
ghost use Rattle.std.specs.Prelude.{◌≡◌, ◌+◌, ◌≤◌, leb, length, take};
ghost use Rattle.text.specs.Format.{attempts_line};
ghost use Rattle.text.specs.Bytes.{write, part, Wrote};
ghost use Rattle.message_log.specs.Log.{rows_image, rows_placed, rewrite};
ghost use Rattle.message_log.specs.Rewrite.{end_behind, image_len, packed, rows_packed, Packable, NoHigher, rows_span};

use crate::RecordRow;
use text::record::{encode_retry, retry_len};

// Whether n bytes fit behind `size` bytes of `long`.
// Kept: no `checked_add`, which gives the sum or nothing where only whether it is small enough is asked.
// `wire::output` has the same two comparisons: another crate could call these only if they were public.
#[tactic(auto, using(crate::proofs::TableLaws::room_behind))]
pub(crate) fn fits_behind(size: usize, n: usize, long: usize) -> bool
    ensures { result ≡ leb (size + n) long }
{
    size <= long && n <= long - size
}

// Where n bytes behind `size` bytes end, where they fit into `long`.
#[tactic(auto, unfolding(crate::specs::Rewrite::end_behind))]
fn end_behind(size: usize, n: usize, long: usize) -> Option<usize>
    ensures { result ≡ end_behind size n long }
{
    if fits_behind(size, n, long) {
        Some(size + n)
    } else {
        None
    }
}

// The length of the retry line of an id that was tried so often: none at 0.
#[tactic(auto, using(crate::proofs::RewriteLaws::no_tries, crate::proofs::RewriteLaws::some_tries))]
pub(crate) fn tries_len(id: u64, tried: u64) -> usize
    ensures { result ≡ length (attempts_line id tried) }
{
    if tried == 0 { 0 } else { retry_len(id, tried) }
}

// The retry line of an id that was tried so often, written from a place on: none at 0. It gives the place behind it.
pub(crate) fn put_tries(log: &mut [u8], at: usize, id: u64, tried: u64) -> usize
    requires { at + length (attempts_line id tried) ≤ length log.old }
    ensures { Wrote log.old at (attempts_line id tried) log.new result }
{
    if tried == 0 {
        return at;
    }
    let n = retry_len(id, tried);
    encode_retry(&mut log[at..], id, tried);
    at + n
}

// The n bytes from a on moved to `to`; where they stand there already, nothing is done.
// Kept: a place and a length beside the log, since the bytes and their new place overlap in it.
fn move_to(log: &mut [u8], a: usize, n: usize, to: usize)
    requires { (a + n ≤ length log.old) × (to + n ≤ length log.old) }
    ensures { log.new ≡ write log.old to (part log.old a (a + n)) }
{
    if to != a {
        log.copy_within(a..a + n, to);
    }
}

// How long the rows' records and retry lines are, where the rows stand one behind the other and these fit into the log.
fn image_len(records: &[RecordRow], long: usize) -> Option<usize>
    ensures { result ≡ image_len long records.now }
{
    let mut start: usize = 0;
    let mut to: usize = 0;
    for r in records {
        let at = r[1] as usize;
        let len = r[2] as usize;
        if at < start {
            return None;
        }
        start = end_behind(at, len, long)?;
        to = end_behind(to, len, long)?;
        to = end_behind(to, tries_len(r[0], r[3]), long)?;
    }
    Some(to)
}

// The records moved down, one behind the other from the first byte on, and their rows, which say where to.
fn pack(log: &mut [u8], records: &mut [RecordRow], count: usize)
    requires { (count ≤ length records.old) × Packable (length log.old) 0 (take count records.old) }
    ensures bytes { log.new
        ≡ write log.old 0 (packed log.old (take count records.old)) }
    ensures table { records.new
        ≡ write records.old 0 (rows_packed 0 (take count records.old)) }
{
    let mut to: usize = 0;
    for i in 0..count {
        let r = records[i];
        let len = r[2] as usize;
        move_to(log, r[1] as usize, len, to);
        records[i] = [r[0], to as u64, r[2], r[3]];
        to += len;
    }
}

// The records moved up, from the last one on, so that each has room for its retry line behind it; the lines, and the
// rows. `end` is where the last line is to end.
fn spread(log: &mut [u8], records: &mut [RecordRow], count: usize, end: usize)
    requires { (count ≤ length records.old) × (end ≤ length log.old)
        × (end ≡ rows_span (take count records.old)) × NoHigher 0 (take count records.old) }
    ensures bytes { log.new
        ≡ write log.old 0 (rows_image log.old (take count records.old)) }
    ensures table { records.new
        ≡ write records.old 0 (rows_placed 0 (take count records.old)) }
{
    let mut to = end;
    for i in (0..count).rev() {
        let r = records[i];
        let len = r[2] as usize;
        to -= tries_len(r[0], r[3]);
        put_tries(log, to, r[0], r[3]);
        to -= len;
        move_to(log, r[1] as usize, len, to);
        records[i] = [r[0], to as u64, r[2], r[3]];
    }
}

// The log rewritten to its open records and their retry lines.
pub(crate) fn compact(log: &mut [u8], records: &mut [RecordRow], count: usize)
    ensures { record { bytes = log.new; table = records.new }
        ≡ rewrite log.old records.old (take count records.old) }
{
    let rows = count.min(records.len());
    let Some(end) = image_len(&records[..rows], log.len()) else {
        return;
    };
    pack(log, records, rows);
    spread(log, records, rows, end);
}
