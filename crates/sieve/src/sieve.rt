// The sieve of Eratosthenes for polynomials: of each degree up to n/2 in turn, and then of degree n, the multiples of the polynomials of lower degree that are not marked are struck out.
ghost use Rattle.std.specs.Prelude.{◌≡◌, ◌+◌, ◌/◌, ◌^◌, ◌≤◌, length, replicate};
ghost use Rattle.sieve.specs.Clauses.{Sieved, Progress, Room, Clear, SievedBelow, Outside};

use crate::digits::power;
use crate::strike::strike_multiples;

// The multiples of degree m of all polynomials of degree n that are not marked.
fn strike_degree(
    p: u32,
    n: usize,
    m: usize,
    xs: &mut [u16; 32768],
    codes: &mut [u16; 32768],
    marks: &mut [u8; 131072],
)
    requires sizes { (2 ≤ p) × (1 ≤ n) × (n + n ≤ m) × (m ≤ 16) × (p ^ m ≤ 65536) }
    requires rooms { (length xs.old ≡ 32768) × (length codes.old ≡ 32768) }
    requires sieved { Sieved p n marks.old × Progress p m n 0 marks.old }
    ensures rooms_after { (length xs.new ≡ 32768) × (length codes.new ≡ 32768) }
    ensures progress { Progress p m (n + 1) 0 marks.new × Outside p m marks.old marks.new }
{
    let size = power(p as usize, n);
    for c in 0..size {
        if marks[size + c] == 0 {
            strike_multiples(p, n, c as u32, m, xs, codes, marks);
        }
    }
}

// Degree m, where those up to m/2 are sieved.
fn sieve_degree(
    p: u32,
    m: usize,
    xs: &mut [u16; 32768],
    codes: &mut [u16; 32768],
    marks: &mut [u8; 131072],
)
    requires sizes { (2 ≤ p) × (1 ≤ m) × (m ≤ 16) × (p ^ m ≤ 65536) × Room marks.old }
    requires rooms { (length xs.old ≡ 32768) × (length codes.old ≡ 32768) }
    requires sieved_below { SievedBelow p (m / 2 + 1) marks.old × Clear (p ^ m) marks.old }
    ensures rooms_after { (length xs.new ≡ 32768) × (length codes.new ≡ 32768) }
    ensures sieved { Sieved p m marks.new × Outside p m marks.old marks.new }
{
    for n in 1..m / 2 + 1 {
        strike_degree(p, n, m, xs, codes, marks);
    }
}

// Marks, of the polynomials of degree n, those with a monic divisor of degree 1 to n − 1.
pub fn sieve(p: u32, n: usize, marks: &mut [u8; 131072])
    requires sizes { (2 ≤ p) × (1 ≤ n) × (n ≤ 16) × (p ^ n ≤ 65536) }
    requires none_marked { marks.old ≡ replicate 131072 0 }
    ensures { Sieved p n marks.new × Room marks.new }
{
    // Arrays of the size that the largest p^n needs, since nothing is allocated.
    let mut xs = [0; 32768];
    let mut codes = [0; 32768];
    for m in 1..n / 2 + 1 {
        sieve_degree(p, m, &mut xs, &mut codes, marks);
    }
    sieve_degree(p, n, &mut xs, &mut codes, marks);
}
