// Scripts read and outputs written, byte by byte (docs/PROTOCOL.md): what `replay` takes and gives. It knows the
// shapes of settings, calls and replies, and nothing of the pool.
#![tactic(auto)]

pub mod number; // number.rt: numbers and bytes, read and written
pub mod output; // output.rt: texts one behind the other, while there is room
pub mod script; // script.rt: the header, the groups and the calls of a script
