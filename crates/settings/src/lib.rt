// What an opening writes: the settings with their ranges, the tables at the start, and the messages that a log left.
// Nothing is required; every function equals a definition of specs/.
#![tactic(auto)]

pub mod ranges; // whether settings are in their ranges, and the groups' rows
pub mod tables; // the tables at the start, and the messages left
