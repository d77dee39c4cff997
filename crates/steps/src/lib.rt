// One step of an actor, cut at its questions: `fixed::step_fixed` and `eval::step_eval` go from an open question and
// its reply to the next question, or to the step's end. They change the lists of messages, the actor's row and how
// many messages are queued in mailboxes. A step of an eval actor never ends the actor and never fails: its end has a
// type of its own.
// Every function takes constant time, requires nothing, and equals a definition of specs/; a reply that does not fit
// changes nothing.
// The invariant is that of the lists, `Good`. The theorems `step_fixed_kept`, `step_eval_kept` and `eval_start_kept`
// of proofs/Kept.antt say that every step keeps it, leaves the lists of other actors as they were, and changes
// `queued` as the mailbox's length; `deadline_exact` and row end 8 (docs/RULES.md, Row ends), `row_ends_hold`, stand
// in proofs/Times.antt.
#![tactic(auto)]

pub mod step; // what both steps do: mail is taken, a message is over
pub mod fixed; // step_fixed: a program that loops over receive()
pub mod eval; // step_eval: a fresh interpreter for each message
