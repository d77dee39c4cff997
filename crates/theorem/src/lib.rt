// The theorem of the whole rail, over every list of calls from an accepted opening, and the laws that it rests on. No
// code: definitions and laws alone. The calls, and the state that they go over, are defined in turn, answers and pool.
//
// Every message stands in exactly one of six places     specs/Places, proofs/Totals, Through, PlaceMoves, Steps
// what an opening hands back                            specs/Handing, HandedShown, proofs/Filling
// mailboxes are chains, and what is done to them        specs/Mailboxes, Operations, Examples, proofs/MailMoves
// what each part of a turn keeps, who holds messages    specs/Keeping, Living, MailSteps
// the theorem                                           specs/Rail, proofs/Rail; pools that it rules out:
//                                                       proofs/WrongPools
// every call goes by its table of refusals              specs/Refusals
// a call stops only where nothing runs                  specs/Stopping

#![tactic(auto)]
