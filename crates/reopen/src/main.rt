// Reads a log on standard input and prints the log that opening writes, or `refused=N`.
#![tactic(auto)]

use std::io;

fn main(rt: HostRuntime) -> io::Result<()> {
    let _ = reopening::reopen_from(&mut rt.stdin(), &mut rt.stdout())?;
    Ok(())
}
