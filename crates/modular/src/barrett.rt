// Reduction modulo p without a division, after Barrett: the quotient comes from a product with a reciprocal of p, worked out once for each p. The
// words that are reduced are sums of products of words below p.
ghost use Rattle.std.specs.Prelude.{◌≡◌, ◌+◌, ◌*◌, ◌%◌, ◌^◌, ◌≤◌, ◌<◌};
ghost use Rattle.modular.specs.Reciprocal.{IsReciprocal};

// A divisor p with its reciprocal 2^(32 + shift) / p. The shift leaves five bits of p, so that the reciprocal and what is left of a word after the
// shift have at most 32 bits.
#[derive(Clone, Copy)]
pub struct Barrett {
    pub p: u64,
    pub shift: u32,
    pub reciprocal: u64,
    pub ghost reduces: { IsReciprocal p shift reciprocal },
}

// The product of two numbers of 32 bits. The casts let the compiler multiply several such pairs at once.
pub fn times(a: u64, b: u64) -> u64
    requires { (a < 2 ^ 32) × (b < 2 ^ 32) }
    ensures { result ≡ a * b }
{
    (a as u32 as u64) * (b as u32 as u64)
}

// The number of bits of p less five, or 0.
fn shift_of(p: u64) -> u32
    requires { (2 ≤ p) × (p ≤ 2 ^ 20) }
    ensures { (2 ^ result * 16 ≤ p + 16) × (p ≤ 2 ^ result * 32) }
{
    let bits = 64 - u64::leading_zeros(p);
    if bits < 5 { 0 } else { bits - 5 }
}

impl Barrett {
    // The divisor p.
    pub fn new(p: u64) -> Barrett
        requires { (2 ≤ p) × (p ≤ 2 ^ 20) }
        ensures { result.p ≡ p }
    {
        let shift = shift_of(p);
        Barrett {
            p,
            shift,
            reciprocal: (4294967296 << shift) / p,
        }
    }

    // A number below 2·p that is x modulo p.
    pub fn near(self, x: u64) -> u64
        requires { x ≤ 64 * (self.p * self.p) }
        ensures { (result < 2 * self.p) × (result % self.p ≡ x % self.p) }
    {
        let q = times(x >> self.shift, self.reciprocal) >> 32;
        x - times(q, self.p)
    }

    // A number up to 2·p that is −x modulo p.
    pub fn opposite(self, x: u64) -> u64
        requires { x ≤ 64 * (self.p * self.p) }
        ensures { (result ≤ 2 * self.p) × ((result + x) % self.p ≡ 0) }
    {
        2 * self.p - self.near(x)
    }

    // x modulo p.
    pub fn reduce(self, x: u64) -> u64
        requires { x ≤ 64 * (self.p * self.p) }
        ensures { (result ≡ x % self.p) × (result < self.p) }
    {
        let y = self.near(x);
        let p = self.p;
        if y < p { y } else { y - p }
    }
}
