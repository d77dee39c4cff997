// Where a turn stands: at rest, at a question (`Ask`) or at a point that runs on (`Point`), with the actor's cursor.
// `at` has the enums, which are what it means, `words` the words that code hands on. Nothing is required, every
// function takes constant time and equals a definition of specs/, or ensures what the words that it makes mean.
#![tactic(auto)]

pub mod at; // where a turn stands
pub mod words; // the same as words, as code hands it on
