// Ids: numbers below 2^64 in decimal.
ghost use Rattle.std.specs.Prelude.{◌≡◌, ◌≤◌, length};
ghost use Rattle.text.specs.Format.{read_digits, leading_zero, read_id, print_id};
ghost use Rattle.text.specs.Bytes.{Wrote};

// One digit or more, a value below 2^64.
fn read_digits(s: &[u8]) -> Option<u64>
    ensures { result ≡ read_digits s.now }
{
    if s.is_empty() {
        return None;
    }
    let mut high: u64 = 0;
    for &b in s {
        if !b.is_ascii_digit() {
            return None;
        }
        high = high.checked_mul(10)?.checked_add(u64::from(b - b'0'))?;
    }
    Some(high)
}

// Whether a 0 stands before another byte.
fn leading_zero(s: &[u8]) -> bool
    ensures { result ≡ leading_zero s.now }
{
    matches!(s, [b'0', _, ..])
}

// An id: digits without a leading zero.
#[tactic(auto, unfolding(crate::specs::Format::read_id))]
pub(crate) fn read_id(s: &[u8]) -> Option<u64>
    ensures { result ≡ read_id s.now }
{
    if leading_zero(s) {
        return None;
    }
    read_digits(s)
}

// The number of digits of an id.
#[tactic(auto, using(crate::proofs::IdLaws::length_power, crate::proofs::IdLaws::length_one))]
pub(crate) fn id_len(id: u64) -> usize
    ensures { result ≡ length (print_id id) }
{
    match id.checked_ilog10() {
        Some(k) => k as usize + 1,
        None => 1,
    }
}

// The id's digits, written from the first byte on.
#[tactic(auto, using(crate::proofs::IdLaws::print_there))]
pub(crate) fn print_id(out: &mut [u8], id: u64) -> usize
    requires { length (print_id id) ≤ length out.old }
    ensures { Wrote out.old 0 (print_id id) out.new result }
{
    let len = id_len(id);
    let mut n = id;
    for k in 1..len {
        out[len - k] = b'0' + (n % 10) as u8;
        n /= 10;
    }
    out[0] = b'0' + n as u8;
    len
}
