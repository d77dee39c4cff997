// Escaped fields: a backslash, TAB or LF is written as two bytes; and back.
ghost use Rattle.std.specs.Prelude.{◌≡◌, [], ◌∷◌, ◌+◌, ◌≤◌, ◌<◌, leb, length, drop};
ghost use Rattle.text.specs.Format.{escape_byte, escape, escaped, unescape, unescape_next};
ghost use Rattle.text.specs.Bytes.{Wrote};
ghost use Rattle.text.specs.Answers.{length_within, filled};

// One byte.
// Kept: what is written into and the place go as two parameters, here and in the other functions that write. As a struct
// that holds the slice by `&mut`, each contract would have to ensure besides that the field keeps its ghost name.
#[tactic(auto, using(crate::proofs::WriteLaws::wrote_one))]
pub(crate) fn put(out: &mut [u8], at: usize, b: u8) -> usize
    requires { at < length out.old }
    ensures { Wrote out.old at (b ∷ []) out.new result }
{
    out[at] = b;
    at + 1
}

// A backslash, TAB or LF takes two bytes, any other byte one.
// Kept: no `From`, which would say that a number is what a byte means; the width is only what its escape takes.
#[tactic(auto, unfolding(crate::specs::Format::escape_byte))]
fn escaped_width(b: u8) -> usize
    ensures { result ≡ length (escape_byte b) }
{
    match b {
        b'\\' | b'\t' | b'\n' => 2,
        _ => 1,
    }
}

#[tactic(auto, unfolding(crate::specs::Format::escape_byte))]
fn put_escaped_byte(out: &mut [u8], at: usize, b: u8) -> usize
    requires { at + length (escape_byte b) ≤ length out.old }
    ensures { Wrote out.old at (escape_byte b) out.new result }
{
    let second = match b {
        b'\\' => b'\\',
        b'\t' => b't',
        b'\n' => b'n',
        _ => return put(out, at, b),
    };
    let a = put(out, at, b'\\');
    put(out, a, second)
}

// The length of a text, escaped, where it is at most `most`.
#[tactic(auto, using(crate::proofs::EscapeLaws::escapes), unfolding(crate::specs::Answers::length_within))]
pub(crate) fn escaped_len(s: &[u8], most: usize) -> Option<usize>
    ensures { result ≡ length_within (length (escape s.now)) most }
{
    let mut n: usize = 0;
    for &b in s {
        let w = escaped_width(b);
        if most - n < w {
            return None;
        }
        n += w;
    }
    Some(n)
}

// A text, escaped, written from `at` on.
#[tactic(auto, using(crate::proofs::EscapeLaws::escape_width))]
pub(crate) fn put_escaped(out: &mut [u8], at: usize, s: &[u8]) -> usize
    requires { at + length (escape s.now) ≤ length out.old }
    ensures { Wrote out.old at (escape s.now) out.new result }
{
    let mut p = at;
    for &b in s {
        p = put_escaped_byte(out, p, b);
    }
    p
}

// The byte that an escaped byte stands for.
#[tactic(auto, unfolding(crate::specs::Format::escaped))]
fn escaped_byte(b: u8) -> u8
    ensures { result ≡ escaped b }
{
    match b {
        b't' => b'\t',
        b'n' => b'\n',
        _ => b,
    }
}

// The text from place i on, unescaped, written from `at` on: in plain text ..
// Kept: these two are the project's example of functions that call each other (docs/DECISIONS.md), in place of a loop.
#[cycle(unescape_after_unescape_plain)]
fn unescape_plain(out: &mut [u8], at: usize, s: &[u8], i: usize) -> usize
    requires { at + length (unescape (drop i s.now)) ≤ length out.old }
    ensures { Wrote out.old at (unescape (drop i s.now)) out.new result }
{
    if s.len() <= i {
        return at;
    }
    let b = s[i];
    if b == b'\\' {
        return unescape_after(out, at, s, i + 1);
    }
    let p = put(out, at, b);
    unescape_plain(out, p, s, i + 1)
}

// .. and after a backslash.
#[cycle(unescape_after_unescape_plain)]
fn unescape_after(out: &mut [u8], at: usize, s: &[u8], i: usize) -> usize
    requires { at + length (unescape_next (drop i s.now)) ≤ length out.old }
    ensures { Wrote out.old at (unescape_next (drop i s.now)) out.new result }
{
    if s.len() <= i {
        return at;
    }
    let b = escaped_byte(s[i]);
    let p = put(out, at, b);
    unescape_plain(out, p, s, i + 1)
}

// The length of the text from place i on, unescaped, and n more: in plain text, and after a backslash.
// Kept: functions that call each other, as the two above; `n` is what was counted so far, and no length of `s`.
#[cycle(after_len_unescaped_len)]
fn unescaped_len(s: &[u8], i: usize, n: usize) -> usize
    requires { n ≤ i }
    ensures { result ≡ n + length (unescape (drop i s.now)) }
{
    if s.len() <= i {
        return n;
    }
    if s[i] == b'\\' {
        return after_len(s, i + 1, n);
    }
    unescaped_len(s, i + 1, n + 1)
}

#[cycle(after_len_unescaped_len)]
fn after_len(s: &[u8], i: usize, n: usize) -> usize
    requires { n < i }
    ensures { result ≡ n + length (unescape_next (drop i s.now)) }
{
    if s.len() <= i {
        return n;
    }
    unescaped_len(s, i + 1, n + 1)
}

// Whether a field, unescaped, is at most `most` bytes long. A field of more than twice that and one byte is too long
// unread, so that the calls never go deeper than that.
#[tactic(auto, using(crate::proofs::AnswerLaws::unescape_long))]
pub fn field_fits(field: &[u8], most: usize) -> bool
    ensures { result ≡ leb (length (unescape field.now)) most }
{
    field.len() / 2 <= most && unescaped_len(field, 0, 0) <= most
}

// A field, unescaped, written from the first byte on; one that does not fit is left out. The answer is its length.
#[tactic(auto, using(crate::proofs::AnswerLaws::filled_over))]
pub fn copy_field(out: &mut [u8], field: &[u8]) -> Option<usize>
    ensures { record { bytes = out.new; answer = result } ≡ filled out.old (unescape field.now) }
{
    if field_fits(field, out.len()) {
        Some(unescape_plain(out, 0, field, 0))
    } else {
        None
    }
}
