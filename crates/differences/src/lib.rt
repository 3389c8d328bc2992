// Tables stored as differences (request S-11): lists of 32-bit words, whatever their values.
//   number     the refusals of this call and of `restore`, which the crate restoring has
//   store      the public call `differences`
//   wrapped    sums and differences of words, wrapped at 32 bits
#![tactic(auto)]

pub mod number;
pub mod store;
pub mod wrapped;
