// The pool behind one function of bytes: a script (settings, lent lengths, file, then a whole list of calls and
// replies) is run, and each answer, order and log is written out (docs/PROTOCOL.md). `replay` requires nothing and
// equals its definition, `replay_of` (specs/Replay): the calls decoded from the script, run by the same `call_of` that
// the theorem of the whole rail is about (crates/theorem/specs/Rail). It keeps nothing from one script to the next. A
// host in another language, and the comparison, call it by way of crates/replay_c.
#![tactic(auto)]

ghost use Rattle.std.specs.Prelude.{◌≡◌};
ghost use Rattle.replay.specs.Replay.{replay_of};

use crate::play::Tables;
use group::roster;
use message_log::RECORDS;
use wire::output;
use wire::output::Done;

pub mod entry; // entry.rt: an entry of the output
pub mod play; // play.rt: a script from its header to its end

// Runs a script on the lent log and store and writes its output, whose first 8 bytes count the others. 0: run to its
// end; 1: the script is malformed; 2: the output has no room for what comes next; 3: the lent log or store has another
// length than the script says. What was written before stands.
pub fn replay(script: &[u8], log: &mut [u8], store: &mut [u8], out: &mut [u8]) -> u64
    ensures { record { bytes = log.new; store = store.new; out = out.new; code = result }
        ≡ replay_of script.now log.old store.old out.old }
{
    if out.len() < 8 {
        return 2;
    }
    let mut given = [[0u64; 37]; 16];
    let mut t = Tables {
        pool: [0u64; 28],
        records: [[0u64; 4]; RECORDS],
        groups: [[0u64; 37]; lists::GROUPS],
        links: [[0u64; 4]; lists::LISTS],
        rows: [[0u64; 7]; lists::ENTRIES],
        keys: [[0u8; 65]; roster::ROWS],
        actors: [[0u64; 12]; lists::SLOTS],
    };
    let done = play::play(script, log, store, out, &mut given, &mut t);
    output::output_numbers(out, Done { at: 0, code: 0 }, &[(done.at - 8) as u64]);
    done.code
}
