// Numbers of 8 bytes, the lowest byte first, and plain bytes.
ghost use Rattle.std.specs.Prelude.{◌≡◌, ◌+◌, ◌≤◌, length, get_or};
ghost use Rattle.text.specs.Bytes.{Wrote};
ghost use Rattle.wire.specs.Number.{number_at, number, numbers};

// The byte at p + k, or 0 past the end.
fn byte_at(s: &[u8], p: usize, k: usize) -> u8
    ensures { result ≡ get_or s.now (p + k) 0 }
{
    match p.checked_add(k) {
        Some(i) if i < s.len() => s[i],
        _ => 0,
    }
}

// The number of eight bytes that all stand there. Kept beside the one below, which tests each byte: a script is read by
// nothing else, and of eight bytes that need no test the compiler makes one load.
#[tactic(auto, unfolding(crate::specs::Number::number_at, crate::specs::Number::four_at))]
fn number_inside(s: &[u8], p: usize) -> u64
    requires { p + 8 ≤ length s.now }
    ensures { result ≡ number_at s.now p }
{
    u64::from_le_bytes([
        s[p],
        s[p + 1],
        s[p + 2],
        s[p + 3],
        s[p + 4],
        s[p + 5],
        s[p + 6],
        s[p + 7],
    ])
}

// The number at a place; bytes past the end count as 0.
pub fn number_at(s: &[u8], p: usize) -> u64
    ensures { result ≡ number_at s.now p }
{
    if 8 <= s.len() && p <= s.len() - 8 {
        return number_inside(s, p);
    }
    let mut bytes = [0u8; 8];
    for k in 0..8 {
        bytes[k] = byte_at(s, p, k);
    }
    u64::from_le_bytes(bytes)
}

// A number, written from `at` on.
fn put_number(out: &mut [u8], at: usize, n: u64) -> usize
    requires { at + 8 ≤ length out.old }
    ensures { Wrote out.old at (number n) out.new result }
{
    out[at..at + 8].copy_from_slice(&n.to_le_bytes());
    at + 8
}

// Numbers, one behind the other.
pub(crate) fn put_numbers(out: &mut [u8], at: usize, ns: &[u64]) -> usize
    requires { at + length (numbers ns.now) ≤ length out.old }
    ensures { Wrote out.old at (numbers ns.now) out.new result }
{
    let mut p = at;
    for &n in ns {
        p = put_number(out, p, n);
    }
    p
}

// Bytes, copied.
#[tactic(auto, unfolding(text::specs::Bytes::write))]
pub(crate) fn put_bytes(out: &mut [u8], at: usize, s: &[u8]) -> usize
    requires { at + length s.now ≤ length out.old }
    ensures { Wrote out.old at s.now out.new result }
{
    // Kept: a loop. By the library's copy the archives would ask their host for `memmove`, beside `memcpy` and
    // `memset`.
    for i in 0..s.len() {
        out[at + i] = s[i];
    }
    at + s.len()
}
