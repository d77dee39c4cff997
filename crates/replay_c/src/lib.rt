// The pool for a host in another language: the C function `replay`, which is that of crates/replay and promises the
// same. Its header is in docs/PROTOCOL.md; tools/archives builds libreplay.a of it.
#![tactic(auto)]

ghost use Rattle.std.specs.Prelude.{◌≡◌};
ghost use Rattle.replay.specs.Replay.{replay_of};

// Runs a script on the lent log and store and writes its output, whose first 8 bytes count the others. 0: run to its
// end; 1: the script is malformed; 2: the output has no room for what comes next; 3: the lent log or store has another
// length than the script says. What was written before stands.
#[unsafe(no_mangle)]
pub extern "C" fn replay(script: &[u8], log: &mut [u8], store: &mut [u8], out: &mut [u8]) -> u64
    ensures { record { bytes = log.new; store = store.new; out = out.new; code = result }
        ≡ replay_of script.now log.old store.old out.old }
{
    replay::replay(script, log, store, out)
}
