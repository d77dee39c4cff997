// The pool's six calls: open, admit, turn, reply, sync and close. A call ends at a question, an order or the turn's
// end. The pool's own state is lent as cells and the tables as rows, to each call as the one before left them. Nothing
// is required of them: on any tables and any numbers each call ends and equals its definition (specs/). What the
// theorem of the whole rail says, it says of pools that an opening made.
#![tactic(auto)]

pub mod open; // an opening
pub mod admit; // a message from outside
pub mod run; // a turn runs on, and how it ended
pub mod calls; // turn, reply, sync, close
