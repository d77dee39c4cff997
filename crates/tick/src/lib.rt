// The second part of a turn, `tick` of the Rust: waiting actors are woken, ready ones are stepped, and what a step
// left is settled. Every function takes only the tables that it touches, requires nothing, and equals a definition of
// specs/. Kept: the tables stay parameters, also in a crash, whose functions pass `groups`, `links` and `rows` on to each
// other: of these only `links` is changed, and a struct of them would need a clause in each contract that says so.
#![tactic(auto)]

pub mod waking; // Wake and Poll
pub mod ready; // the ready list, and the begin of a step
pub mod settle; // the end of a step: lists, release
pub mod crash; // crashed messages, traps
