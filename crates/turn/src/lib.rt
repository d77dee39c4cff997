// A turn as a machine that stops at questions and orders: `step::advance` runs as far as it can, `resume::resume`
// takes a reply. The pool's own state is lent as cells, the tables as rows. Nothing is required; every function
// equals a definition of specs/, and the loop ends on any tables: each step lowers a weight of where the turn stands
// (specs/Weight.antt).
#![tactic(auto)]

pub mod state; // the pool's own state, in cells
pub mod go; // one running point
pub mod step; // marks first, then the point; the loop
pub mod asks; // the open question
pub mod resume; // a reply to the turn's question
