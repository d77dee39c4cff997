// Settings: whether each is in its range, and the groups' rows that a pool works with.
ghost use Rattle.std.specs.Prelude.{◌≡◌, drop};
ghost use Rattle.settings.specs.Ranges.{all_bytes, row_fits, rows_fit, numbers_fit, settings_fit, pool_row};
ghost use Rattle.settings.specs.Ranges.{groups_from};

use actor::message;
use group::settings::GroupRow;
use lists::slab;

// The most actors of a group.
const KEYS: u64 = slab::KEYS as u64;

// What is set besides the groups.
#[derive(Clone, Copy)]
pub struct Settings {
    pub max_actors: u64,
    pub inbox: u64,
    pub backlog: u64,
    pub compact_at: u64,
    // nanoseconds of a tick
    pub tick: u64,
}

// Whether the cells from 5 on, the bytes of a name, are bytes.
#[tactic(auto, using(crate::proofs::Loops::cells))]
fn all_bytes(row: &GroupRow) -> bool
    ensures { result ≡ all_bytes (drop 5 row.now) }
{
    for b in &row[5..] {
        if 255 < *b {
            return false;
        }
    }
    true
}

// Whether a group's settings are in their ranges: replicas, fixed or eval, timeout, retry, the name's length, its
// bytes.
#[tactic(auto, unfolding(crate::specs::Ranges::row_fits))]
fn row_fits(row: &GroupRow) -> bool
    ensures { result ≡ row_fits row.now }
{
    row[0] <= KEYS
        && row[1] <= 1
        && row[2] <= 86400
        && row[3] <= 255
        && row[4] <= message::NAME
        && all_bytes(row)
}

// Whether every group's settings are in their ranges.
#[tactic(auto, using(crate::proofs::Loops::rows_more, crate::proofs::Loops::rows_end))]
fn rows_fit(given: &[GroupRow]) -> bool
    ensures { result ≡ rows_fit given.now }
{
    for row in given {
        if !row_fits(row) {
            return false;
        }
    }
    true
}

// Whether the other numbers are in their ranges.
#[tactic(auto, unfolding(crate::specs::Ranges::numbers_fit, crate::specs::Ranges::within))]
fn numbers_fit(s: Settings) -> bool
    ensures { result ≡ numbers_fit s }
{
    s.max_actors <= KEYS
        && (1..=64).contains(&s.inbox)
        && (1..=lists::MESSAGES).contains(&s.backlog)
        && (1..=65536).contains(&s.compact_at)
        && (1..=1000000000).contains(&s.tick)
}

// Whether every setting is in its range.
#[tactic(auto, unfolding(crate::specs::Ranges::settings_fit))]
pub fn settings_fit(s: Settings, given: &[GroupRow]) -> bool
    ensures { result ≡ settings_fit s given.now }
{
    let n = given.len();
    n != 0 && n <= lists::GROUPS && numbers_fit(s) && rows_fit(given)
}

// A group's row with its ceiling: the lesser of its replicas and max_actors.
#[tactic(auto, unfolding(crate::specs::Ranges::pool_row))]
fn pool_row(row: GroupRow, most: u64) -> GroupRow
    ensures { result ≡ pool_row most row }
{
    let mut b = row;
    b[0] = b[0].min(most);
    b
}

// The groups' rows; past the end of either table nothing.
#[tactic(auto, using(crate::proofs::Loops::groups))]
pub fn put_groups(groups: &mut [GroupRow], given: &[GroupRow], most: u64)
    ensures { groups.new ≡ groups_from most groups.old given.now }
{
    for g in 0..groups.len().min(given.len()) {
        groups[g] = pool_row(given[g], most);
    }
}
