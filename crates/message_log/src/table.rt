// Rows of the table of open records: an id, where its record begins, the record's length, and its attempts. The first
// `count` rows are in use.
// Kept: the number of rows in use stands beside the table. Both are lent, and each call says what it does also where
// the table has fewer rows (specs/Log); of a slice of the rows in use that could not be said.
ghost use Rattle.std.specs.Prelude.{◌≡◌, ◌∷◌, ◌+◌, ◌≤◌, ◌<◌, length, take, set};
ghost use Rattle.text.specs.Bytes.{write, part};
ghost use Rattle.message_log.specs.Log.{row, search_row};

use crate::RecordRow;

// The place of an id's row. Ids rise, so it is searched by halving: of 256 rows at most 9 are read.
// Kept: the library's `binary_search_by_key` halves in another way, so that on rows that do not rise it finds other
// places than the definition `search_row`, by which `mark` and `retry` say what they do on any table.
pub(crate) fn search_row(rows: &[RecordRow], count: usize, id: u64) -> Option<usize>
    ensures { result ≡ search_row id (take count rows.now) }
{
    let mut lo: usize = 0;
    let mut hi = count.min(rows.len());
    while lo < hi {
        let mid = lo + (hi - lo) / 2;
        let here = rows[mid][0];
        if here == id {
            return Some(mid);
        }
        if here < id {
            lo = mid + 1;
        } else {
            hi = mid;
        }
    }
    None
}

// A row stored, where there is one at that place.
pub(crate) fn set_row(rows: &mut [RecordRow], i: usize, id: u64, at: usize, len: usize, tried: u64)
    ensures { rows.new ≡ set rows.old i (row id at len tried) }
{
    if i < rows.len() {
        rows[i] = [id, at as u64, len as u64, tried];
    }
}

// A row taken out: those behind it move down by one.
pub(crate) fn close_row(rows: &mut [RecordRow], i: usize, count: usize)
    ensures { rows.new ≡ write rows.old i (part rows.old (i + 1) count) }
{
    let end = count.min(rows.len());
    if i < end {
        rows.copy_within(i + 1..end, i);
    }
}

// A row put at place i: those from there on, up to place n, move up by one.
pub(crate) fn open_row(rows: &mut [RecordRow], i: usize, n: usize, row: RecordRow)
    requires { (i ≤ n) × (n < length rows.old) }
    ensures { rows.new ≡ write rows.old i (row ∷ part rows.old i n) }
{
    rows.copy_within(i..n, i + 1);
    rows[i] = row;
}
