// What calls answer: the answers, the refusals and their numbers, and which call is refused when. Every function
// equals a definition of specs/.
#![tactic(auto)]

pub mod answer;
pub mod refusals; // the table of refusals
pub mod numbers; // an answer in numbers
