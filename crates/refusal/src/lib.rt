// The refusals of all calls (document 01, "Caused by what was sent" and "Caused by where the session is"; document 02), each with its number, and the
// tests behind 1 to 4, once for all calls.
//   number   the refusals and their numbers
//   sent     the tests behind 1 to 4, and the first that fails
#![tactic(auto)]

pub mod number;
pub mod sent;

pub use crate::number::{Refusal, number_of};
