// Powers a^k modulo a prime p of the first numbers a = 1, 2, …, for one exponent k: they are multiplicative in a.
//   four    the powers of four numbers at once
//   table   the powers of the numbers below 128, each worked out when it is asked for
#![tactic(auto)]

pub mod four;
pub mod table;
