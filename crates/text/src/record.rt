// Records, done lines and retry lines: measured, and written into a part of the log.
ghost use Rattle.std.specs.Prelude.{◌≡◌, ◌+◌, ◌≤◌, length};
ghost use Rattle.text.specs.Format.{print_id, untried, record_line, done_line, retry_line};
ghost use Rattle.text.specs.Bytes.{Wrote};
ghost use Rattle.text.specs.Answers.{length_within, filled};

use crate::escape::{escaped_len, put, put_escaped};
use crate::ids::{id_len, print_id};

// The length of a message's record, where it is at most `most`.
#[tactic(auto, using(crate::proofs::RecordLaws::record_sizes), unfolding(crate::specs::Answers::length_within))]
pub fn record_len(id: u64, name: &[u8], body: &[u8], most: usize) -> Option<usize>
    ensures { result
        ≡ length_within (length (record_line (untried id name.now body.now)))
        most }
{
    let rest = id_len(id) + 3;
    if most < rest {
        return None;
    }
    let name_len = escaped_len(name, most - rest)?;
    let body_len = escaped_len(body, most - rest - name_len)?;
    Some(rest + name_len + body_len)
}

// The record of a message, written from the first byte on.
fn write_record(out: &mut [u8], id: u64, name: &[u8], body: &[u8]) -> usize
    requires { length (record_line (untried id name.now body.now)) ≤ length out.old }
    ensures { Wrote out.old 0
        (record_line (untried id name.now body.now)) out.new result }
{
    let a = print_id(out, id);
    let b = put(out, a, b'\t');
    let c = put_escaped(out, b, name);
    let d = put(out, c, b'\t');
    let e = put_escaped(out, d, body);
    put(out, e, b'\n')
}

// The encoder: the record of a message fills the first bytes of `out`, the others keep theirs; one that does not fit
// is left out.
// Kept: each of the three encoders measures its line and then writes it. One function for all would be given both as
// closures, with a bound that says of them what the contracts of these functions say.
#[tactic(auto, unfolding(crate::specs::Answers::length_within, crate::specs::Answers::filled))]
pub fn encode_record(out: &mut [u8], id: u64, name: &[u8], body: &[u8]) -> Option<usize>
    ensures { record { bytes = out.new; answer = result }
        ≡ filled out.old
        (record_line (untried id name.now body.now)) }
{
    record_len(id, name, body, out.len())?;
    Some(write_record(out, id, name, body))
}

// The length of an id's done line.
#[tactic(auto, using(crate::proofs::RecordLaws::done_length, crate::proofs::IdLaws::print_short))]
pub fn done_len(id: u64) -> usize
    ensures { result ≡ length (done_line id) }
{
    id_len(id) + 1
}

// The done line of an id fills the first bytes of `out`; one that does not fit is left out.
#[tactic(auto, using(crate::proofs::RecordLaws::done_length, crate::proofs::AnswerLaws::filled_over))]
pub fn encode_done(out: &mut [u8], id: u64) -> Option<usize>
    ensures { record { bytes = out.new; answer = result } ≡ filled out.old (done_line id) }
{
    if out.len() < done_len(id) {
        return None;
    }
    let a = print_id(out, id);
    Some(put(out, a, b'\n'))
}

// The length of the line of an id's attempts.
#[tactic(auto, using(crate::proofs::RecordLaws::retry_length, crate::proofs::IdLaws::print_short))]
pub fn retry_len(id: u64, attempts: u64) -> usize
    ensures { result ≡ length (retry_line id attempts) }
{
    id_len(id) + id_len(attempts) + 2
}

// An id's digits, written from a place on.
fn put_id(out: &mut [u8], at: usize, id: u64) -> usize
    requires { at + length (print_id id) ≤ length out.old }
    ensures { Wrote out.old at (print_id id) out.new result }
{
    at + print_id(&mut out[at..], id)
}

// The line of an id's attempts fills the first bytes of `out`; one that does not fit is left out.
#[tactic(auto, using(crate::proofs::RecordLaws::retry_length, crate::proofs::AnswerLaws::filled_over))]
pub fn encode_retry(out: &mut [u8], id: u64, attempts: u64) -> Option<usize>
    ensures { record { bytes = out.new; answer = result }
        ≡ filled out.old (retry_line id attempts) }
{
    if out.len() < retry_len(id, attempts) {
        return None;
    }
    let a = print_id(out, id);
    let b = put(out, a, b'\t');
    let c = put_id(out, b, attempts);
    Some(put(out, c, b'\n'))
}
