// The log reader: opens a log of 65,536 bytes, with a store and tables of its own, and gives the new log or the refusal.
// `reopen` is that on a slice (specs/Reopened); `reopen_from` reads the file from a reader and prints the outcome.
#![tactic(auto)]

ghost use Rattle.std.specs.Prelude.{◌≡◌, ◌<◌, length, take, IfOk, IfSome, OnOk};
ghost use Rattle.std.specs.Io.{ReadsAtMost};
ghost use Rattle.std.specs.Io.KnownBytes.{Appends, Consumes, IsAtEnd};
ghost use Rattle.reopening.specs.Reopened.{reopen_of, reopened_by, printed_of, OfSomeFile, PrintsFile, HasTheRest};

use message_log::{Order, RECORDS, Refusal, STORE};
use std::io;
use std::io::{ErrorKind, Read, Write};

// The new log is the first bytes, so many of them; or the file was refused.
pub type Reopened = Result<usize, Refusal>;

fn answered(a: Result<Order, Refusal>) -> Reopened
    ensures { result ≡ reopened_by a }
{
    match a? {
        Order::Replace(n) => Ok(n),
        Order::Append(_, _) | Order::Flush => Ok(0),
    }
}

// Opens the log whose file is the first n bytes.
// Kept: the length of the file beside the log, since the new log may be longer and is written into the same bytes.
pub fn reopen(log: &mut [u8], n: usize) -> Reopened
    ensures { record { log = log.new; answer = result } ≡ reopen_of log.old n }
{
    let mut store = [0u8; STORE];
    let mut records = [[0u64; 4]; RECORDS];
    let mut left = [[0u64; 4]; RECORDS];
    let opened = message_log::opening::open_log(log, n, &mut store, &mut records, &mut left);
    answered(opened.answer)
}

// Prints the new log, or `refused=N`.
fn print<W: Write>(out: &mut W, log: &[u8], r: &Reopened) -> io::Result<()>
    ensures { OnOk result (Appends (W.contents out.old) (W.contents out.new) (printed_of log.now r.now)) }
{
    match r {
        Ok(size) => {
            let size = (*size).min(log.len());
            out.write_all(&log[..size])
        }
        Err(refusal) => {
            let number = message_log::number(*refusal);
            writeln!(out, "refused={number}")
        }
    }
}

// Reads until the space is full or the input ends, and gives how many bytes it put at the front of the space. A read
// that a signal interrupts is made again.
fn read_full<R: Read>(reader: &mut R, space: &mut [u8]) -> io::Result<usize>
    ensures bound { ReadsAtMost result space.new }
    ensures bytes { IfOk result (λ n. Consumes (R.remaining reader.old) (R.remaining reader.new) (take n space.new)) }
    ensures end { IfOk result (λ n. n < length space.new → IsAtEnd (R.remaining reader.new)) }
    ensures left { HasTheRest (R.remaining reader.old) (R.remaining reader.new) }
{
    let mut n = 0;
    for _ in 0..u64::MAX {
        if n == space.len() {
            return Ok(n);
        }
        match reader.read(&mut space[n..]) {
            Ok(0) => return Ok(n),
            Ok(more) => n += more,
            Err(e) => {
                if e.kind() != ErrorKind::Interrupted {
                    return Err(e);
                }
            }
        }
    }
    Err(io::Error::from(ErrorKind::Interrupted))
}

// Reads a file into a space of one byte more than the log has, so that a longer file is seen, and prints the outcome.
fn reopen_in<R: Read, W: Write>(space: &mut [u8], file: &mut R, out: &mut W) -> io::Result<Reopened>
    requires { length space.old ≡ 65537 }
    ensures some_file { IfOk result OfSomeFile }
    ensures known_file { IfOk result (λ r. IfSome (R.remaining file.old)
        (λ bytes. PrintsFile bytes r (W.contents out.old) (W.contents out.new))) }
    ensures left { HasTheRest (R.remaining file.old) (R.remaining file.new) }
{
    let n = read_full(file, space)?;
    let log = &mut space[..65536];
    let r = reopen(log, n);
    print(out, log, &r)?;
    Ok(r)
}

// Reads a file of at most 65,536 bytes, prints the new log, or `refused=N`, and says which; a longer one is refused,
// since the log cannot hold it. A read or a write that fails is the error that comes back. The system promises no bytes
// of a file, so of its readers all that can be said is that some were reopened; of a reader whose bytes are known, as
// one over memory, those are, and what a writer over memory holds then is what it held and what is printed of them.
// After an error too, such a reader has lost some first bytes of what it had left, and nothing else; how much of what
// was to be printed a writer then holds, its library does not say.
pub fn reopen_from<R: Read, W: Write>(file: &mut R, out: &mut W) -> io::Result<Reopened>
    ensures some_file { IfOk result OfSomeFile }
    ensures known_file { IfOk result (λ r. IfSome (R.remaining file.old)
        (λ bytes. PrintsFile bytes r (W.contents out.old) (W.contents out.new))) }
    ensures left { HasTheRest (R.remaining file.old) (R.remaining file.new) }
{
    let mut space = [0u8; 65537];
    reopen_in(&mut space, file, out)
}

#[cfg(test)]
mod tests {
    use super::reopen_from;
    use std::io;
    use std::io::{ErrorKind, Read};

    // A file whose first read is interrupted and whose second gives a record. Then it ends or fails.
    #[derive(Drop)]
    struct Stub {
        reads: u8,
        fails: bool,
    }

    impl Read for Stub {
        fn read(&mut self, buf: &mut [u8]) -> io::Result<usize> {
            self.reads = self.reads.saturating_add(1);
            match self.reads {
                1 => Err(io::Error::from(ErrorKind::Interrupted)),
                2 if buf.len() >= 8 => {
                    buf[..8].copy_from_slice(b"1\trow\ty\n");
                    Ok(8)
                }
                _ if self.fails => Err(io::Error::from(ErrorKind::UnexpectedEof)),
                _ => Ok(0),
            }
        }
    }

    fn opened(rt: &HostRuntime, fails: bool) -> io::Result<Vec<u8>> {
        let mut out = Vec::new(rt.alloc());
        let _ = reopen_from(&mut Stub { reads: 0, fails }, &mut out)?;
        Ok(out)
    }

    #[test]
    fn the_new_log_is_printed(rt: HostRuntime) -> io::Result<()> {
        let mut out = Vec::new(rt.alloc());
        let mut file: &[u8] = b"3\trow\tx\n1\trow\ty\n3\n";
        let answer = reopen_from(&mut file, &mut out)?;
        assert!(rt; matches!(answer, Ok(8)));
        assert!(rt; out.as_slice() == b"1\trow\ty\n".as_slice());
        Ok(())
    }

    #[test]
    fn an_interrupted_read_is_made_again(rt: HostRuntime) -> io::Result<()> {
        let out = opened(&rt, false)?;
        assert!(rt; out.as_slice() == b"1\trow\ty\n".as_slice());
        Ok(())
    }

    #[test]
    fn a_failed_read_is_not_the_end(rt: HostRuntime) {
        match opened(&rt, true) {
            Ok(_) => assert!(rt; false),
            Err(e) => assert!(rt; e.kind() == ErrorKind::UnexpectedEof),
        }
    }
}
