// The calls that change what a session holds: they take a value and give the next one, or say why they refuse; then
// the value taken, which the caller still has, stays. None requires anything.
//   load      empty to loaded
//   propose   loaded to paired with a pair that the checker accepts
//   find      loaded to paired with the finder's pair
#![tactic(auto)]

pub mod find;
pub mod load;
pub mod propose;
