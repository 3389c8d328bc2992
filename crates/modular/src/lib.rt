// Words modulo p. They are u64, and p is at most 2^20, so that sums of many products fit one word.
//   prime     the test for primes
//   word      sum, difference, remainder, product, power and inverse
//   barrett   reduction of sums of products
#![tactic(auto)]

pub mod barrett;
pub mod prime;
pub mod word;
