// A group of actors: its settings, the keys of its actors, and its ready, idle and waiting lists.
// A group's settings are a row of a lent table (`settings`), its key lists four rows of another (`roster`). Nothing
// is required: past a table's end a read gives an empty row and a write does nothing. Every function equals a
// definition of specs/.
#![tactic(auto)]

pub mod settings; // a group's settings, and the group of a message's name
pub mod roster; // keys of actors: live, scheduled, spawned, idle, least loaded
pub mod over; // a mailbox whose messages are over
