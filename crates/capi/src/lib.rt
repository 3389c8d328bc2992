// The calls that other languages link, under the names of include/yokebean.h. Each promises what the call of the library that it is named after promises,
// and passes its arguments on to it; a call on a session passes on what the value counts as, and changes the value where it lies. An export answers the
// number of its refusal, and a struct has it beside its values, since C has no enum with a value in it.
//   field      irreducible, check, maps, matrices, conversion by matrix, sheet, find, substitute, product, power
//   models     every model of a size: their number, and the list
//   tables     tables stored as differences
//   cards      the reader and the writer of cards
//   sessions   the session, as a value of the crate cvalue
#![tactic(auto)]

pub mod cards;
pub mod field;
pub mod models;
pub mod sessions;
pub mod tables;
