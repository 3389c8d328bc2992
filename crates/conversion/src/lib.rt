// The conversion of tables by what is held: forward by the map u ↦ u(S) modulo T2, back by u ↦ u(R) modulo T1.
//   images     the images of a table's groups under the map of a direction
//   refusals   the refusals of a conversion
//   convert    forward and back, without the ledger
#![tactic(auto)]

pub mod convert;
pub mod images;
pub mod refusals;
