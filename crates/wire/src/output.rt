// The output: texts one behind the other, each whole, while the lent slice has room. Nothing is required: on any
// numbers each function equals its definition.
ghost use Rattle.std.specs.Prelude.{◌≡◌, ◌+◌, leb};
ghost use Rattle.wire.specs.Number.{numbers};
ghost use Rattle.wire.specs.Output.{output, output_rows, output_keys};

use crate::number::{put_bytes, put_numbers};
use lists::keys::KeyRow;

// How far the output is written, and the number that is returned: 0 so far.
// Kept: `code` is the number that the C function of replay_c returns (docs/PROTOCOL.md), and not only this crate's.
#[derive(Drop)]
pub struct Done {
    pub at: usize,
    pub code: u64,
}

// Whether n bytes fit behind `at` bytes of `long`.
// Kept: `message_log::rewrite` has these comparisons too, for itself: they are one line, and no part of what that
// crate offers. No `checked_add`, which gives a sum where only whether it is small enough is asked.
fn fits_behind(at: usize, n: usize, long: usize) -> bool
    ensures { result ≡ leb (at + n) long }
{
    at <= long && n <= long - at
}

// Bytes.
// Kept: this function and the next one differ in what measures and writes. One for both would be given these as
// closures, with a bound that says of them what the contracts of `put_bytes` and `put_numbers` say.
#[tactic(auto, using(crate::proofs::OutputLaws::outputs))]
pub fn output_bytes(out: &mut [u8], d: Done, s: &[u8]) -> Done
    ensures { record { out = out.new; at = result.at; code = result.code }
        ≡ output (record { out = out.old; at = d.at; code = d.code }) s.now }
{
    if d.code != 0 {
        return d;
    }
    if !fits_behind(d.at, s.len(), out.len()) {
        return Done { at: d.at, code: 2 };
    }
    Done {
        at: put_bytes(out, d.at, s),
        code: 0,
    }
}

// Numbers.
#[tactic(auto, using(crate::proofs::OutputLaws::outputs, crate::proofs::NumberLaws::length_numbers))]
pub fn output_numbers(out: &mut [u8], d: Done, ns: &[u64]) -> Done
    ensures { record { out = out.new; at = result.at; code = result.code }
        ≡ output (record { out = out.old; at = d.at; code = d.code }) (numbers ns.now) }
{
    if d.code != 0 {
        return d;
    }
    if !fits_behind(d.at, 8 * ns.len(), out.len()) {
        return Done { at: d.at, code: 2 };
    }
    Done {
        at: put_numbers(out, d.at, ns),
        code: 0,
    }
}

// The rows of a table of numbers.
pub fn output_rows<const N: usize>(out: &mut [u8], d: Done, rows: &[[u64; N]]) -> Done
    ensures { record { out = out.new; at = result.at; code = result.code }
        ≡ output_rows (record { out = out.old; at = d.at; code = d.code }) rows.now }
{
    let mut e = d;
    for row in rows {
        e = output_numbers(out, e, row);
    }
    e
}

// The lists of keys.
// Kept: rows of bytes go out by `output_bytes`, and those of numbers by `output_numbers`. A trait with an impl for each
// of the two would be longer than this loop.
pub fn output_keys(out: &mut [u8], d: Done, t: &[KeyRow]) -> Done
    ensures { record { out = out.new; at = result.at; code = result.code }
        ≡ output_keys (record { out = out.old; at = d.at; code = d.code }) t.now }
{
    let mut e = d;
    for row in t {
        e = output_bytes(out, e, row);
    }
    e
}
