// A table in parts, and the next pair meanwhile (document 02, S-8): the calls of an open table, without the ledger.
//   begin   opens a table in one direction
//   feed    converts a part
//   end     closes it: the record of all its residues, and the waiting session
#![tactic(auto)]

pub mod begin;
pub mod end;
pub mod feed;
