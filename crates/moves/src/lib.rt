// Bytes moved inside a lent slice, eight at a time.
// It holds no state. `move_down` takes n bytes to a lower place, the first bytes first, and `move_up` to a higher one,
// the last bytes first, so that the two places may overlap. A move takes n / 8 steps of eight bytes and n % 8 single
// ones, and counts them as it goes. Where the bytes or their new place do not lie inside the slice, nothing is moved.
// Kept: a place and a length go beside the slice, since the bytes and their new place overlap, and two slices of them
// could not be lent at once.
// Kept: each loop raises `count` at every step that it takes, so that its answer is what it counted.
// The definitions are in specs/Moves. Steps of eight leave what single ones leave (`eights_are_singles`), so that a
// move leaves what moving singly leaves, and what moving all bytes at once leaves (`down_as_singly`, `up_as_singly`;
// proofs/MoveLaws).
#![tactic(auto)]

ghost use Rattle.std.specs.Prelude.{◌≡◌, ◌+◌, ◌/◌, ◌%◌, ◌≤◌, length};
ghost use Rattle.moves.specs.Moves.{moved_at_once, steps_down, steps_up, words_down};
ghost use Rattle.moves.specs.Moves.{words_up, steps_of, move_down, move_up};

// How many steps a move took: of eight bytes, and single ones.
#[derive(Drop)]
pub struct Steps {
    pub eights: usize,
    pub singles: usize,
}

impl Steps {
    // No step, as where a move is refused.
    const NONE: Steps = Steps {
        eights: 0,
        singles: 0,
    };
}

// One step of eight: all eight bytes are read before the first one is written.
// Kept: the edits byte_7_read_from_6, seven_of_the_eight_stored and down_two_bytes_swapped change one of these lines
// each, and a call of the library's `copy_within` has no such lines.
fn move_eight(bytes: &mut [u8], from: usize, to: usize)
    requires { (from + 8 ≤ length bytes.old) × (to + 8 ≤ length bytes.old) }
    ensures { bytes.new ≡ moved_at_once bytes.old from 8 to }
{
    let b0 = bytes[from];
    let b1 = bytes[from + 1];
    let b2 = bytes[from + 2];
    let b3 = bytes[from + 3];
    let b4 = bytes[from + 4];
    let b5 = bytes[from + 5];
    let b6 = bytes[from + 6];
    let b7 = bytes[from + 7];
    bytes[to] = b0;
    bytes[to + 1] = b1;
    bytes[to + 2] = b2;
    bytes[to + 3] = b3;
    bytes[to + 4] = b4;
    bytes[to + 5] = b5;
    bytes[to + 6] = b6;
    bytes[to + 7] = b7;
}

// As many steps of eight as n bytes have room for, the first bytes first; it gives their count.
fn eights_down(bytes: &mut [u8], from: usize, n: usize, to: usize) -> usize
    requires { (to ≤ from) × (from + n ≤ length bytes.old) }
    ensures bytes { bytes.new ≡ steps_down 8 (n / 8) bytes.old from to }
    ensures count { result ≡ n / 8 }
{
    let mut count: usize = 0;
    for k in 0..n / 8 {
        move_eight(bytes, from + 8 * k, to + 8 * k);
        count += 1;
    }
    count
}

// n single steps, the first byte first; it gives their count.
fn singles_down(bytes: &mut [u8], from: usize, n: usize, to: usize) -> usize
    requires { (to ≤ from) × (from + n ≤ length bytes.old) }
    ensures bytes { bytes.new ≡ steps_down 1 n bytes.old from to }
    ensures count { result ≡ n }
{
    let mut count: usize = 0;
    for k in 0..n {
        bytes[to + k] = bytes[from + k];
        count += 1;
    }
    count
}

// As many steps of eight as n bytes have room for, the last bytes first; it gives their count.
fn eights_up(bytes: &mut [u8], from: usize, n: usize, to: usize) -> usize
    requires { (from ≤ to) × (to + n ≤ length bytes.old) }
    ensures bytes { bytes.new ≡ steps_up 8 (n / 8) bytes.old (from + n % 8) (to + n % 8) }
    ensures count { result ≡ n / 8 }
{
    let mut count: usize = 0;
    for k in (0..n / 8).rev() {
        let left = 8 * k + n % 8;
        move_eight(bytes, from + left, to + left);
        count += 1;
    }
    count
}

// n single steps, the last byte first; it gives their count.
fn singles_up(bytes: &mut [u8], from: usize, n: usize, to: usize) -> usize
    requires { (from ≤ to) × (to + n ≤ length bytes.old) }
    ensures bytes { bytes.new ≡ steps_up 1 n bytes.old from to }
    ensures count { result ≡ n }
{
    let mut count: usize = 0;
    for left in (0..n).rev() {
        bytes[to + left] = bytes[from + left];
        count += 1;
    }
    count
}

// n bytes moved down from `from` to `to`, and the steps that this took. Refused, with no step: a place above the
// bytes, and bytes that do not lie inside the slice.
#[tactic(auto, using(crate::proofs::MoveLaws::down_too_high, crate::proofs::MoveLaws::down_too_long))]
pub fn move_down(bytes: &mut [u8], from: usize, n: usize, to: usize) -> Steps
    ensures { record { bytes = bytes.new; steps = result } ≡ move_down bytes.old from n to }
{
    if from < to || bytes.len() < from || bytes.len() - from < n {
        return Steps::NONE;
    }
    let eights = eights_down(bytes, from, n, to);
    let done = 8 * eights;
    let singles = singles_down(bytes, from + done, n % 8, to + done);
    Steps { eights, singles }
}

// n bytes moved up from `from` to `to`, and the steps that this took. Refused, with no step: a place below the bytes,
// and one where they would not lie inside the slice.
#[tactic(auto, using(crate::proofs::MoveLaws::up_too_low, crate::proofs::MoveLaws::up_too_long))]
pub fn move_up(bytes: &mut [u8], from: usize, n: usize, to: usize) -> Steps
    ensures { record { bytes = bytes.new; steps = result } ≡ move_up bytes.old from n to }
{
    if to < from || bytes.len() < to || bytes.len() - to < n {
        return Steps::NONE;
    }
    let eights = eights_up(bytes, from, n, to);
    let singles = singles_up(bytes, from, n % 8, to);
    Steps { eights, singles }
}
