// The text of the log: decimal ids, escaped fields, records, done lines, and the lines of a file.
// It holds no state; every function reads or fills a slice that the caller lends, in one pass over it. The public ones
// require nothing; the private ones that write require that what they write fits.
// The definitions are in specs/Format (what a text is) and specs/Line (what a line says); each function's contract
// equates its answer, and every byte of a lent slice, with them. proofs/FormatLaws has the law that what was escaped
// is unescaped again, proofs/Spelling that what is read as an id is what the id is printed as.
#![tactic(auto)]

pub mod ids; // ids.rt: decimal ids, read and printed
pub mod escape; // escape.rt: escaped and unescaped fields
pub mod record; // record.rt: records and done lines, measured and written
pub mod line; // line.rt: the next whole line, and what a line says
pub mod lines; // lines.rt: the line reader, which remembers the log and how far it has read
