// Lines: where the next whole line of a file ends, and what a line says. (The module `lines` has the reader over them.)
ghost use Rattle.std.specs.Prelude.{◌≡◌, ◌≤◌, length};
ghost use Rattle.text.specs.Line.{name_field, body_field};
ghost use Rattle.text.specs.Answers.{First, FirstFrom, done_kind, retry_kind, put_kind, line_kind, LineEnd};

use crate::ids::read_id;

// The most attempts that a retry line may say.
pub const ATTEMPTS: u64 = 255;

// What a line says: a record with its id and the places of its name and body, a done id, the attempts of an id, or
// nothing.
#[derive(Drop)]
pub enum LineKind {
    Put {
        id: u64,
        name: usize,
        name_end: usize,
        body: usize,
        body_end: usize,
    },
    Done(u64),
    Retry {
        id: u64,
        attempts: u64,
    },
    Other,
}

// The place of the first byte that is `sep`, or the length where there is none.
fn find(s: &[u8], sep: u8) -> usize
    ensures { First s.now sep result }
{
    s.iter().position(|&b| b == sep).unwrap_or(s.len())
}

// The same from a place on.
#[tactic(auto, using(crate::proofs::LineLaws::first_from, crate::proofs::LineLaws::from))]
fn find_from(s: &[u8], from: usize, sep: u8) -> usize
    requires { from ≤ length s.now }
    ensures { FirstFrom s.now from sep result }
{
    from + find(&s[from..], sep)
}

fn done_kind(i: Option<u64>) -> LineKind
    ensures { result ≡ done_kind i }
{
    match i {
        Some(id) => LineKind::Done(id),
        None => LineKind::Other,
    }
}

fn retry_kind(i: Option<u64>, n: Option<u64>) -> LineKind
    ensures { result ≡ retry_kind i n }
{
    match (i, n) {
        (Some(id), Some(attempts)) if attempts <= ATTEMPTS => LineKind::Retry { id, attempts },
        _ => LineKind::Other,
    }
}

fn put_kind(i: Option<u64>, name: usize, name_end: usize, body: usize, body_end: usize) -> LineKind
    ensures { result ≡ put_kind i name name_end body body_end }
{
    match i {
        Some(id) => LineKind::Put {
            id,
            name,
            name_end,
            body,
            body_end,
        },
        None => LineKind::Other,
    }
}

// A line, without its LF.
pub fn line_kind(line: &[u8]) -> LineKind
    ensures { result ≡ line_kind line.now }
{
    let n = line.len();
    let a = find(line, b'\t');
    if a == n {
        return done_kind(read_id(line));
    }
    let b = find_from(line, a + 1, b'\t');
    if b == n {
        return retry_kind(read_id(&line[..a]), read_id(&line[a + 1..]));
    }
    let c = find_from(line, b + 1, b'\t');
    if c < n {
        return LineKind::Other;
    }
    put_kind(read_id(&line[..a]), a + 1, b, b + 1, n)
}

// The end of the next whole line from a place on, or the file's length where there is none.
pub fn line_end(file: &[u8], at: usize) -> usize
    ensures { LineEnd file.now at result }
{
    if file.len() <= at {
        return file.len();
    }
    find_from(file, at, b'\n')
}

// The name of a record, as it stands in the line, still escaped: the slice from after its TAB on. Nothing in any other
// line.
// Kept: this function and the next one differ in the field that they take out of a pattern, which no parameter can be.
pub fn name_field(line: &[u8]) -> &[u8]
    ensures { result.now ≡ name_field line.now }
{
    let LineKind::Put { name, name_end, .. } = line_kind(line) else {
        return &line[0..0];
    };
    &line[name..name_end]
}

// The body of a record, in the same way.
pub fn body_field(line: &[u8]) -> &[u8]
    ensures { result.now ≡ body_field line.now }
{
    let LineKind::Put { body, body_end, .. } = line_kind(line) else {
        return &line[0..0];
    };
    &line[body..body_end]
}
