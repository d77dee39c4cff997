// The pool's own state, in 28 cells that the host lends: where its turn stands, the order that waits, the counts, the
// log's counters, and the settings that a turn looks at. A call changes them in place. What the cells mean is `pool_of`
// (specs/Words); any cells mean some pool. Beside them are the lent tables; all together are the `State` of
// specs/State.
#![tactic(auto, unfolding(crate::specs::Words::pool_of, crate::specs::Words::is_yes, crate::specs::Words::disk_of))]

ghost use Rattle.std.specs.Prelude.{◌≡◌};
ghost use Rattle.points.specs.Words.{at_of, point_of};
ghost use Rattle.turn.specs.Words.{is_yes, disk_kind_of, what_of, order_in, order_for_of, disk_of, pool_of};
ghost use Rattle.turn.specs.State.{disk_for, with_disk, stood_at, queued_at, stepped_at, lost_at, begun_at};
ghost use Rattle.turn.specs.State.{closed_pool, new_pool};
ghost use Rattle.turn.specs.State.{is_free, marks_at, running_of};

use actor::message::MessageRow;
use actor::state::ActorRow;
use group::settings::GroupRow;
use lists::LinkRow;
use lists::keys::KeyRow;
use message_log::{Counters, LogId, Order, RecordRow};
use points::words;
use points::words::{Place, Where};
use tick::crash::Losses;

// What an order is for: a new record, the mark of a message, the retry of a message, or none of these.
#[derive(Drop)]
pub enum OrderFor {
    Record,
    Mark(LogId),
    Retry(LogId),
    Nothing,
}

// The disk: no order waits; one waits; one failed, and nothing is taken any more. It is what `DiskWords` means.
#[derive(Drop)]
pub enum Disk {
    Free,
    Waits(Order, OrderFor),
    Failed,
}

// The kind of a `Disk`: free, failed, or the kind of the order that waits.
#[derive(Clone, Copy, PartialEq, Eq)]
pub enum DiskKind {
    Free,
    Append,
    Replace,
    Flush,
    Failed,
}

// The kind of a number, as `as u64` tells it; any other number is read as a flush.
// Kept: an arm for each number, here and for `What`, as in the `From<u64>` of the other enums.
impl From<u64> for DiskKind {
    ghost from_gives = { λ n kind. kind ≡ disk_kind_of n };

    #[tactic(auto, unfolding(crate::specs::Words::disk_kind_of))]
    fn from(n: u64) -> DiskKind {
        match n {
            0 => DiskKind::Free,
            1 => DiskKind::Append,
            2 => DiskKind::Replace,
            4 => DiskKind::Failed,
            _ => DiskKind::Flush,
        }
    }
}

// The number of a kind.
impl From<DiskKind> for u64 {
    ghost from_gives = { λ kind n. disk_kind_of n ≡ kind };

    #[tactic(auto, unfolding(crate::specs::Words::disk_kind_of))]
    fn from(kind: DiskKind) -> u64 {
        kind as u64
    }
}

// The kind of an `OrderFor`.
#[derive(Clone, Copy, PartialEq, Eq)]
pub enum What {
    Record,
    Mark,
    Nothing,
    Retry,
}

// The kind of a number, as `as u64` tells it; any other number is read as `Nothing`.
impl From<u64> for What {
    ghost from_gives = { λ n what. what ≡ what_of n };

    #[tactic(auto, unfolding(crate::specs::Words::what_of))]
    fn from(n: u64) -> What {
        match n {
            0 => What::Record,
            1 => What::Mark,
            3 => What::Retry,
            _ => What::Nothing,
        }
    }
}

// The number of a kind.
impl From<What> for u64 {
    ghost from_gives = { λ what n. what_of n ≡ what };

    #[tactic(auto, unfolding(crate::specs::Words::what_of))]
    fn from(what: What) -> u64 {
        what as u64
    }
}

// The disk as words.
#[derive(Clone, Copy)]
pub struct DiskWords {
    // the number of a `DiskKind`. Kept a number, as is `what`: any means a kind, and a function that takes these words
    // answers for all.
    pub disk: u64,
    // of an append: from this byte of the log to that one; of a replace: the first bytes up to that one
    pub from: usize,
    pub to: usize,
    // what the order is for (`What`), and the message that a mark or a retry is for
    pub what: u64,
    pub id: u64,
}

#[derive(Drop)]
pub struct Limits {
    // how many groups there are
    pub groups: usize,
    pub inbox: u64,
    pub backlog: u64,
    pub compact_at: usize,
    // nanoseconds of a tick
    pub tick: u64,
}

// The cells: 0 to 6 where the turn stands (`Where`), 7 to 11 the disk (`DiskWords`), 12 how many messages are in
// mailboxes, 13 and 14 the dead messages and the crashes, 15 whether an actor was stepped in this turn, 16 to 20 the
// log's counters, 21 to 25 the limits, 26 whether no more is admitted, 27 whether the first turn was taken. Yes is 1,
// no is 0. Kept as cells: the host lends them as plain numbers (crates/drive exports calls that take them).
pub type PoolCells = [u64; 28];

// What a call is lent: the pool, the log, the body store, and the pool's tables.
#[derive(Drop)]
pub struct Rail<'a> {
    pub pool: &'a mut PoolCells,
    pub log: &'a mut [u8],
    pub records: &'a mut [RecordRow],
    pub store: &'a [u8],
    pub groups: &'a [GroupRow],
    pub links: &'a mut [LinkRow],
    pub rows: &'a mut [MessageRow],
    pub keys: &'a mut [KeyRow],
    pub actors: &'a mut [ActorRow],
}

// Yes or no as a cell. Kept, as is `bool_of`, for its contract: by `is_yes` any number but 0 is yes.
pub fn flag_cell(b: bool) -> u64
    ensures { is_yes result ≡ b }
{
    u64::from(b)
}

// Yes or no of a cell.
pub fn bool_of(n: u64) -> bool
    ensures { result ≡ is_yes n }
{
    n != 0
}

// The disk takes orders, and has none.
pub fn free() -> DiskWords
    ensures { disk_of result ≡ Disk.Free }
{
    DiskWords {
        disk: u64::from(DiskKind::Free),
        from: 0,
        to: 0,
        what: u64::from(What::Nothing),
        id: 0,
    }
}

// An order failed.
pub fn failed() -> DiskWords
    ensures { disk_of result ≡ Disk.Failed }
{
    DiskWords {
        disk: u64::from(DiskKind::Failed),
        ..free()
    }
}

// An order waits, for what the number of a `What` says.
pub fn waits(order: Order, what: u64, id: u64) -> DiskWords
    ensures { disk_of result ≡ Disk.Waits order (order_for_of (what_of what) id) }
{
    match order {
        Order::Append(from, to) => DiskWords {
            disk: u64::from(DiskKind::Append),
            from,
            to,
            what,
            id,
        },
        Order::Replace(n) => DiskWords {
            disk: u64::from(DiskKind::Replace),
            from: 0,
            to: n,
            what,
            id,
        },
        Order::Flush => DiskWords {
            disk: u64::from(DiskKind::Flush),
            from: 0,
            to: 0,
            what,
            id,
        },
    }
}

// What is due waits, for this.
pub fn waiting(due: Option<Order>, what: u64, id: u64) -> DiskWords
    ensures { disk_of result ≡ disk_for due (order_for_of (what_of what) id) }
{
    match due {
        Some(order) => waits(order, what, id),
        None => free(),
    }
}

// The order that waits, where one does.
pub(crate) fn order_in(disk: DiskWords) -> Order
    ensures { result ≡ order_in disk }
{
    match DiskKind::from(disk.disk) {
        DiskKind::Append => Order::Append(disk.from, disk.to),
        DiskKind::Replace => Order::Replace(disk.to),
        _ => Order::Flush,
    }
}

// Where the turn stands.
pub fn where_in(pool: &PoolCells) -> Where
    ensures { (pool_of pool.now).turn.at ≡ at_of result }
{
    Where {
        place: pool[0],
        group: pool[1] as usize,
        key: pool[2],
        now: pool[3],
        left: pool[4],
        step: pool[5],
        more: pool[6],
    }
}

// The disk.
pub fn disk_in(pool: &PoolCells) -> DiskWords
    ensures { (pool_of pool.now).turn.disk ≡ disk_of result }
{
    DiskWords {
        disk: pool[7],
        from: pool[8] as usize,
        to: pool[9] as usize,
        what: pool[10],
        id: pool[11],
    }
}

// How many messages are in mailboxes.
pub fn queued(pool: &PoolCells) -> u64
    ensures { result ≡ (pool_of pool.now).turn.counts.queued }
{
    pool[12]
}

// The dead messages and the crashes.
pub fn losses(pool: &PoolCells) -> Losses
    ensures { result ≡ (pool_of pool.now).turn.counts.losses }
{
    Losses {
        dead: pool[13],
        crashes: pool[14],
    }
}

// Whether an actor was stepped in this turn.
pub fn stepped(pool: &PoolCells) -> bool
    ensures { result ≡ (pool_of pool.now).turn.counts.stepped }
{
    bool_of(pool[15])
}

// The log's counters, as the pool has them.
pub fn counters(pool: &PoolCells) -> Counters
    ensures { result ≡ (pool_of pool.now).turn.counters }
{
    Counters {
        next: pool[16],
        live: pool[17] as usize,
        size: pool[18] as usize,
        dirty: bool_of(pool[19]),
        count: pool[20] as usize,
    }
}

// How many groups there are.
pub fn groups(pool: &PoolCells) -> usize
    ensures { result ≡ (pool_of pool.now).limits.groups }
{
    pool[21] as usize
}

pub fn inbox(pool: &PoolCells) -> u64
    ensures { result ≡ (pool_of pool.now).limits.inbox }
{
    pool[22]
}

pub(crate) fn backlog(pool: &PoolCells) -> u64
    ensures { result ≡ (pool_of pool.now).limits.backlog }
{
    pool[23]
}

pub(crate) fn compact_at(pool: &PoolCells) -> usize
    ensures { result ≡ (pool_of pool.now).limits.compact_at }
{
    pool[24] as usize
}

pub(crate) fn tick(pool: &PoolCells) -> u64
    ensures { result ≡ (pool_of pool.now).limits.tick }
{
    pool[25]
}

// Whether no more is admitted.
pub fn closed(pool: &PoolCells) -> bool
    ensures { result ≡ (pool_of pool.now).closed }
{
    bool_of(pool[26])
}

// Whether the first turn was taken.
pub fn seeded(pool: &PoolCells) -> bool
    ensures { result ≡ (pool_of pool.now).seeded }
{
    bool_of(pool[27])
}

// The disk is this; the log's counters are as they were.
pub fn set_disk(pool: &mut PoolCells, disk: DiskWords)
    ensures { pool_of pool.new
        ≡ with_disk (pool_of pool.old) (pool_of pool.old).turn.counters (disk_of disk) }
{
    pool[7] = disk.disk;
    pool[8] = disk.from as u64;
    pool[9] = disk.to as u64;
    pool[10] = disk.what;
    pool[11] = disk.id;
}

// The log's counters and the disk are these.
pub fn set_log(pool: &mut PoolCells, counters: Counters, disk: DiskWords)
    ensures { pool_of pool.new ≡ with_disk (pool_of pool.old) counters (disk_of disk) }
{
    pool[16] = counters.next;
    pool[17] = counters.live as u64;
    pool[18] = counters.size as u64;
    pool[19] = flag_cell(counters.dirty);
    pool[20] = counters.count as u64;
    set_disk(pool, disk);
}

// The turn stands there.
pub(crate) fn stand_at(pool: &mut PoolCells, at: Where)
    ensures { pool_of pool.new ≡ stood_at (pool_of pool.old) (at_of at) }
{
    pool[0] = at.place;
    pool[1] = at.group as u64;
    pool[2] = at.key;
    pool[3] = at.now;
    pool[4] = at.left;
    pool[5] = at.step;
    pool[6] = at.more;
}

// The turn stands there, with so many messages in mailboxes.
pub(crate) fn queue_at(pool: &mut PoolCells, at: Where, queued: u64)
    ensures { pool_of pool.new ≡ queued_at (pool_of pool.old) (at_of at) queued }
{
    stand_at(pool, at);
    pool[12] = queued;
}

// The turn stands there, with so many messages in mailboxes, and whether an actor was stepped.
pub(crate) fn step_at(pool: &mut PoolCells, at: Where, queued: u64, stepped: bool)
    ensures { pool_of pool.new ≡ stepped_at (pool_of pool.old) (at_of at) queued stepped }
{
    queue_at(pool, at, queued);
    pool[15] = flag_cell(stepped);
}

// The turn stands there, with so many messages in mailboxes, and these losses.
pub(crate) fn lose_at(pool: &mut PoolCells, at: Where, queued: u64, losses: Losses)
    ensures { pool_of pool.new ≡ lost_at (pool_of pool.old) (at_of at) queued losses }
{
    pool[13] = losses.dead;
    pool[14] = losses.crashes;
    queue_at(pool, at, queued);
}

// A turn begins there: no actor was stepped in it yet, and the first turn was taken.
pub fn begin_at(pool: &mut PoolCells, at: Where)
    ensures { pool_of pool.new ≡ begun_at (pool_of pool.old) (at_of at) }
{
    pool[15] = 0;
    pool[27] = 1;
    stand_at(pool, at);
}

// No more is admitted.
pub fn close(pool: &mut PoolCells)
    ensures { pool_of pool.new ≡ closed_pool (pool_of pool.old) }
{
    pool[26] = 1;
}

// A new pool, at rest.
#[tactic(auto, unfolding(crate::specs::Words::pool_of, crate::specs::Words::is_yes, points::specs::Words::at_of))]
pub fn start(pool: &mut PoolCells, limits: Limits, counters: Counters, disk: DiskWords)
    ensures { pool_of pool.new ≡ new_pool limits counters (disk_of disk) }
{
    *pool = [
        u64::from(Place::Rest),
        0,
        0,
        0,
        0,
        0,
        0,
        disk.disk,
        disk.from as u64,
        disk.to as u64,
        disk.what,
        disk.id,
        0,
        0,
        0,
        0,
        counters.next,
        counters.live as u64,
        counters.size as u64,
        flag_cell(counters.dirty),
        counters.count as u64,
        limits.groups as u64,
        limits.inbox,
        limits.backlog,
        limits.compact_at as u64,
        limits.tick,
        0,
        0,
    ];
}

// Whether what is over gets its mark before the point runs.
#[tactic(auto, unfolding(crate::specs::State::marks_at))]
pub(crate) fn marks_at(w: Where) -> bool
    ensures { result ≡ marks_at (point_of w) }
{
    !matches!(
        Place::from(w.place),
        Place::Seed | Place::Intake | Place::Wake | Place::WakeNext | Place::Settle
    )
}

// Whether no order waits and none failed.
#[tactic(auto, unfolding(crate::specs::Words::pool_of, crate::specs::Words::disk_of, crate::specs::Words::disk_kind_of))]
pub(crate) fn disk_free(pool: &PoolCells) -> bool
    ensures { result ≡ is_free (pool_of pool.now).turn.disk }
{
    pool[7] == DiskKind::Free as u64
}

// Whether the turn runs on by itself: no order waits, and it is between questions.
#[tactic(auto, unfolding(crate::specs::State::running_of, crate::specs::Words::pool_of, points::specs::Words::at_of))]
pub(crate) fn running(pool: &PoolCells) -> bool
    ensures { result ≡ running_of (pool_of pool.now) }
{
    disk_free(pool) && Place::from(pool[0]).runs()
}
