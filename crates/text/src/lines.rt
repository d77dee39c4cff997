// A line reader that remembers the log and how far it has read: an iterator, which at each call hands back the next
// whole line and moves on past it.
// The work is in `next_from`, on a slice and a place, for whoever reads a single line. A pass over a file makes one
// reader and goes through it by a `for` loop, line by line.
ghost use Rattle.std.specs.Prelude.{◌≡◌, ◌-◌, drop, length};
ghost use Rattle.std.specs.Iterator.{at_most};
ghost use Rattle.text.specs.Format.{lines};
ghost use Rattle.text.specs.Line.{first_text};
ghost use Rattle.text.specs.Lines.{next_at};

use crate::line::line_end;

#[derive(Drop)]
pub struct Lines<'a> {
    pub log: &'a [u8],
    pub at: usize,
}

// The next line, and how far the log is read after it.
#[derive(Drop)]
pub struct NextLine {
    pub line: Option<(usize, usize)>,
    pub at: usize,
}

// The next line that a reader from a place on hands back, and where the reader then is.
#[tactic(auto, using(crate::proofs::NextLaws::next_at_line, crate::proofs::NextLaws::next_at_none))]
pub fn next_from(log: &[u8], at: usize) -> NextLine
    ensures { result ≡ next_at log.now at }
{
    let end = line_end(log, at);
    if log.len() <= end {
        return NextLine { line: None, at };
    }
    NextLine {
        line: Some((at, end)),
        at: end + 1,
    }
}

impl<'a> Lines<'a> {
    // A reader of a log, from a place on.
    pub fn new(log: &'a [u8], at: usize) -> Self
        ensures { (result.log ≡ log.entry) × (result.at ≡ at) }
    {
        Lines { log, at }
    }
}

// The next whole line; the reader is then past it. Where there is none, or only a torn one, it stays.
impl<'a> Iterator for Lines<'a> {
    type Item = (usize, usize);

    ghost next_gives = { λ old r new. (record { line = r; at = new.at } ≡ next_at old.log.now old.at)
        × (new.log ≡ old.log) };

    ghost remaining = { λ s. at_most (length s.log.now - s.at) };

    fn next(&mut self) -> Option<(usize, usize)> {
        let t = next_from(self.log, self.at);
        self.at = t.at;
        t.line
    }
}

// The whole line that begins at a place; nothing where there is none.
pub fn line_at(log: &[u8], at: usize) -> &[u8]
    ensures { result.now ≡ first_text (lines (drop at log.now)) }
{
    let Some((from, to)) = next_from(log, at).line else {
        return &log[0..0];
    };
    &log[from..to]
}
