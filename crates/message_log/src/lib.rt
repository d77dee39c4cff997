// The write-ahead log of the rail pool, over a lent slice of bytes: each message logged, each marked done, so that a
// restart hands back only the rest.
// State: the lent log (its first `size` bytes are the file), a lent table of 256 rows of open records (id, where the
// record begins, its length, its attempts) in rising id order, and the counters, lent by `&mut`. One invariant, a law
// and no precondition: the table is what the bytes say (specs/Stands, theorem `standing`).
// Cost: `open_log` reads the file once, and once more each time that its table of 257 rows had to let open records go;
// `append` goes by the record's length, `mark` by the table's, `retry` and `sync` by neither; a rewrite moves the open
// records.
// Each call ends on any bytes, tables and numbers and equals its definition (specs/Log, specs/Opened). The theorem
// (proofs/Recovery): after any list of calls with any arguments, wherever the power fails, the next opening hands back
// exactly the messages of one moment no earlier than the last confirmed flush or replace.
#![tactic(auto)]

ghost use Rattle.std.specs.Prelude.{◌≡◌};
ghost use Rattle.message_log.specs.Log.{log_number_of};

pub mod opening; // opening.rt: a file read, decided on and written anew
pub mod rewrite; // rewrite.rt: the log rewritten to its open records and their retry lines
pub mod table; // table.rt: rows of the table of open records
pub mod wal; // wal.rt: append, mark, retry, sync

// The most open records: as many messages as there are.
pub const RECORDS: usize = 256;

// The most bytes of a message's name.
pub const NAME: usize = 32;

// The most bytes of its body.
pub const BODY: usize = 128;

// The bytes of an entry of the body store: a name, then a body.
pub const ENTRY: usize = NAME + BODY;

// The bytes of the body store.
pub const STORE: usize = RECORDS * ENTRY;

// The id under which a message is logged.
#[derive(Clone, Copy, PartialEq, Eq, Debug)]
pub struct LogId(pub u64);

// A row of the open records, as it is lent: the id, where the record begins, its length, and its attempts.
// Kept: it is four numbers, since the public calls take tables of these, and another type would ask callers for more.
pub type RecordRow = [u64; 4];

// The log's counters: the next id, the length of the open records and their retry lines, the file's length, whether a
// record was appended since the last flush, and the number of open records.
#[derive(Clone, Copy, PartialEq, Eq, Debug)]
pub struct Counters {
    pub next: u64,
    pub live: usize,
    pub size: usize,
    pub dirty: bool,
    pub count: usize,
}

// An order to the disk: append bytes a to b of the log, replace the file by the first n, flush.
#[derive(Clone, Copy)]
pub enum Order {
    Append(usize, usize),
    Replace(usize),
    Flush,
}

// Why a call was turned away, with its number.
#[derive(Clone, Copy, PartialEq, Eq, Debug)]
pub enum Refusal {
    Sizes = 2,
    LastId = 3,
    TooMuch = 4,
    TooLong = 5,
    Full = 8,
    NoId = 9,
    NoRoom = 10,
}

// The counters after an opening, and its answer.
// Kept: the two stand side by side, since an opening that is refused also gives counters, all 0 (`closed_by`).
#[derive(Drop)]
pub struct Answered {
    pub counters: Counters,
    pub answer: Result<Order, Refusal>,
}

// The number of a refusal.
pub fn number(r: Refusal) -> u64
    ensures { result ≡ log_number_of r }
{
    r as u64
}
