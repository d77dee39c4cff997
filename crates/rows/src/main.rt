// Replays recorded answers of the Rust: a list of scripts of the pool, the row ends 8 to 11 first, each with the
// output that the Rust's answers make, on standard input (its form is said in the list). Prints each titled script
// with whether the port's output is the same byte for byte, in just the room that it needs, and how many are.
#![tactic(auto)]

ghost use Rattle.std.specs.Prelude.{◌≤◌, length};

use message_log::STORE;
use replay::replay;
use std::io;
use std::io::{Read, Write};
use wire::number::number_at;

// The most bytes of a list; what stands behind them is not read.
// Kept: it is a size, and no kind.
const LIST: u64 = 262144;

#[derive(Drop)]
struct Tally {
    passed: u64,
    cases: u64,
}

fn digit(b: u8) -> u8
    ensures { result ≤ 15 }
{
    match b {
        b'0'..=b'9' => b - b'0',
        b'a'..=b'f' => b - b'a' + 10,
        _ => 0,
    }
}

// How many zero bytes a sign stands for.
// Kept: no `From`, as the number is not what the sign means in general, but only in a list.
fn zeros(b: u8) -> usize
    ensures { result ≤ 7 }
{
    match b {
        b'.' => 7,
        b':' => 6,
        _ => 0,
    }
}

// So many zero bytes, or as many as there is room for.
// Kept: `n` is how many to write, of which only some may have room; `at` is checked against the slice.
fn put_zeros(out: &mut [u8], at: usize, n: usize) -> usize
    requires { at ≤ length out.old }
    ensures { result ≤ length out.old }
{
    let end = out.len().min(at.saturating_add(n));
    out[at..end].fill(0);
    end
}

// The bytes of a line, behind its first sign; those that have no room are left out. A byte is one sign or two.
fn decode(line: &[u8], out: &mut [u8]) -> usize
    ensures { result ≤ length out.old }
{
    let [_, signs @ ..] = line else {
        return 0;
    };
    let mut p: usize = 0;
    let mut first: Option<u8> = None;
    for &b in signs {
        if let Some(high) = first {
            if out.len() <= p {
                return p;
            }
            out[p] = digit(high) * 16 + digit(b);
            p += 1;
            first = None;
        } else {
            let z = zeros(b);
            if 0 < z {
                p = put_zeros(out, p, z);
            } else {
                first = Some(b);
            }
        }
    }
    p
}

// Whether the port writes just what is expected. The script says how long the lent log and store are.
fn replayed(
    script: &[u8],
    expected: &[u8],
    log: &mut [u8],
    store: &mut [u8],
    out: &mut [u8],
) -> bool {
    let n = expected.len();
    let l = number_at(script, 16) as usize;
    let m = number_at(script, 24) as usize;
    if out.len() < n || log.len() < l || store.len() < m {
        return false;
    }
    replay(script, &mut log[..l], &mut store[..m], &mut out[..n]) == 0 && out.starts_with(expected)
}

// A title, if there is one, with whether its script was replayed.
fn print_title<W: Write>(
    text: &[u8],
    from: usize,
    end: usize,
    passed: bool,
    console: &mut W,
) -> io::Result<()> {
    if from < end && end <= text.len() {
        console.write_all(&text[from..end])?;
        if passed {
            console.write_all(b": the same\n")?;
        } else {
            console.write_all(b": DIFFERENT\n")?;
        }
    }
    Ok(())
}

// The whole list, by its whole lines; a script, the output expected and the port's are held in what is lent.
fn replay_list<W: Write>(
    text: &[u8],
    script: &mut [u8],
    expected: &mut [u8],
    log: &mut [u8],
    store: &mut [u8],
    out: &mut [u8],
    console: &mut W,
) -> io::Result<Tally> {
    let mut n: usize = 0;
    let mut from: usize = 0;
    let mut title: usize = 0;
    let mut title_end: usize = 0;
    let mut passed: u64 = 0;
    let mut cases: u64 = 0;
    for (end, sign) in text.iter().enumerate() {
        if *sign == b'\n' {
            let line = &text[from..end];
            match text[from] {
                b'<' => n = decode(line, script),
                b'>' => {
                    let m = decode(line, expected);
                    let good = replayed(&script[..n], &expected[..m], log, store, out);
                    print_title(text, title, title_end, good, console)?;
                    title_end = 0;
                    cases += 1;
                    passed += u64::from(good);
                }
                b'=' => {
                    title = from + 1;
                    title_end = end;
                }
                _ => {}
            }
            from = end + 1;
        }
    }
    Ok(Tally { passed, cases })
}

fn main(rt: HostRuntime) -> io::Result<()> {
    let mut text = Vec::new(rt.alloc());
    rt.stdin().take(LIST).read_to_end(&mut text)?;
    let mut script = [0u8; 16384];
    let mut expected = [0u8; 32768];
    let mut log = [0u8; 65536];
    let mut store = [0u8; STORE];
    let mut out = [0u8; 32768];
    let tally = replay_list(
        &text,
        &mut script,
        &mut expected,
        &mut log,
        &mut store,
        &mut out,
        &mut rt.stdout(),
    )?;
    println!(rt;
        "{} of {} recorded answers replayed",
        tally.passed, tally.cases
    )
}
