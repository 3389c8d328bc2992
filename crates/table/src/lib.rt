// Tables of residues: lists of groups of n words, which a conversion maps group by group (document 01, "Forward and back convert a lent list").
//   number    the refusals by the table and the list lent for its image
//   convert   the images of a table's groups
#![tactic(auto)]

pub mod convert;
pub mod number;

// The most words that one conversion takes.
pub const WORDS: usize = 16384;
