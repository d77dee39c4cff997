// The first part of a turn: the first turn's spawns (`seed`), the intake of the inbox, and the routing of the batch
// to actors (`route_pending`). Every function takes only the tables that it touches, requires nothing, and equals a
// definition of specs/.
#![tactic(auto)]

pub mod seed; // one spawn for each group, on the first turn
pub mod intake; // inbox to pending, and pending to the batch
pub mod batch; // the batch's messages to actors
