// What a pool knows of an actor and of a message: an actor's state, a message's row, and the questions and their
// replies. State and rows are structs by value with names, kept in lent tables of cells; nothing is required: past a
// table's end a read gives an empty row and a write does nothing. Their one invariant is that what is written is read
// back, and every other row is as it was: the theorems `message_back`, `message_put`, `message_other`, `onto_back`,
// `actor_put`, `actor_other` of proofs/Back.antt. Every function takes constant time and equals a definition of
// specs/.
#![tactic(auto)]

mod cells; // a number that may be missing, in two cells
pub mod message; // a message's row: attempts, lengths, caller, log id
pub mod question; // what is asked, and what may be replied
pub mod state; // an actor's state
pub mod entry; // a message put into a free entry
pub mod part; // the message in question as a part of the body store
