// The multiples of one polynomial, struck out.
ghost use Rattle.std.specs.Prelude.{◌≡◌, ◌+◌, ◌*◌, ◌^◌, ◌≤◌, ◌<◌, length};
ghost use Rattle.array.specs.Array.{padded};
ghost use Rattle.array.specs.Digits.{digits};
ghost use Rattle.sieve.specs.Clauses.{WordsBelow, Struck, StruckBy, Room};

use crate::digits::{power, write_digits};
use crate::lows::lows;
use array::Word;
use array::copy::load;
use modular::barrett::Barrett;
use residue::modulus::Modulus;

// Marks word base + h·q + codes[h], for each h below count.
fn strike(base: usize, q: usize, count: usize, codes: &[u16; 32768], marks: &mut [u8; 131072])
    requires places { (base ≤ 65536) × (count * q ≤ base) × (count ≤ 32768) × Room marks.old }
    requires words_below { WordsBelow q count codes.now }
    ensures { Struck base q count codes.now marks.old marks.new }
{
    let mut from = base;
    for h in 0..count {
        marks[from + usize::from(codes[h])] = 1;
        from += q;
    }
}

// The digits of c in base p, as many as the lent list has words, in an array.
fn load_digits(p: u32, c: u32, words: &mut [Word]) -> [u64; 16]
    requires { (1 ≤ p) × (length words.old ≤ 16) }
    ensures { result ≡ padded (digits p (length words.old) c) }
{
    write_digits(p, c, words);
    load(words)
}

// The lower words of the polynomial of degree n with the code c.
fn lower_words(p: u32, n: usize, c: u32) -> [u64; 16]
    requires { (1 ≤ p) × (n ≤ 16) }
    ensures { result ≡ padded (digits p n c) }
{
    let mut words = [0; 16];
    load_digits(p, c, &mut words[..n])
}

// Marks the multiples of degree m of the polynomial of degree n with the code c. The arrays xs and codes are lent.
pub fn strike_multiples(
    p: u32,
    n: usize,
    c: u32,
    m: usize,
    xs: &mut [u16; 32768],
    codes: &mut [u16; 32768],
    marks: &mut [u8; 131072],
)
    requires sizes { (2 ≤ p) × (1 ≤ n) × (n + n ≤ m) × (m ≤ 16) × (p ^ m ≤ 65536) × (c < p ^ n) }
    requires rooms { (length xs.old ≡ 32768) × (length codes.old ≡ 32768) × Room marks.old }
    ensures rooms_after { (length xs.new ≡ 32768) × (length codes.new ≡ 32768) }
    ensures struck_by { StruckBy p (digits p n c) m marks.old marks.new }
{
    let t = Modulus::new(Barrett::new(p as u64), n, lower_words(p, n, c));
    let k = m - n;
    let count = power(p as usize, k);
    lows(&t, k, count, xs, codes);
    strike(
        power(p as usize, m),
        power(p as usize, n),
        count,
        codes,
        marks,
    );
}
