// Numbers in base p: powers of p, and digits.
ghost use Rattle.std.specs.Prelude.{◌≡◌, ◌/◌, ◌%◌, ◌^◌, ◌≤◌, length};
ghost use Rattle.array.specs.Digits.{digits};

use array::Word;

// p^k.
pub fn power(p: usize, k: usize) -> usize
    requires { (1 ≤ p) × (p ^ k ≤ 65536) }
    ensures { result ≡ p ^ k }
{
    let mut r = 1;
    for _ in 0..k {
        r *= p;
    }
    r
}

// The lowest digit of c. A number below p is not divided.
fn lowest(p: u32, c: u32) -> u32
    requires { 1 ≤ p }
    ensures { result ≡ c % p }
{
    if c < p { c } else { c % p }
}

// The number with the other digits.
fn others(p: u32, c: u32) -> u32
    requires { 1 ≤ p }
    ensures { result ≡ c / p }
{
    if c < p { 0 } else { c / p }
}

// The lowest digits of c in base p, as many as the list has words.
pub fn write_digits(p: u32, c: u32, out: &mut [Word])
    requires { 1 ≤ p }
    ensures { out.new ≡ digits p (length out.old) c }
{
    let mut rest = c;
    for word in out.iter_mut() {
        *word = lowest(p, rest);
        rest = others(p, rest);
    }
}
