// A table restored from its differences (request S-11): running sums down its columns.
//   restore    the public call `restore`
//   columns    the columns of a table, restored one, four or eight at a time
#![tactic(auto)]

mod columns;
pub mod restore;
