// A modulus T, monic of degree n, as the arithmetic takes it: with p and the reciprocal of p.
ghost use Rattle.std.specs.Prelude.{◌≡◌, ◌^◌, ◌≤◌};
ghost use Rattle.array.specs.Array.{padded, Holds};
ghost use Rattle.array.specs.Props.{Holds-prop};
ghost use Rattle.array.specs.Words.{Words};

use array::Word;
use array::copy::load;
use modular::barrett::Barrett;

// p with its reciprocal, the degree, and the words of T below its leading 1, with zeros after them.
#[derive(Clone, Copy)]
pub struct Modulus {
    pub d: Barrett,
    pub n: usize,
    pub words: [u64; 16],
    pub ghost degree: { (1 ≤ n) × (n ≤ 16) },
    pub ghost below: { Holds d.p n words } by { Holds-prop d.p n words },
}

impl Modulus {
    // The modulus with these words.
    pub fn new(d: Barrett, n: usize, words: [u64; 16]) -> Modulus
        requires degree { (1 ≤ n) × (n ≤ 16) }
        requires below { Holds d.p n words }
        ensures { (result.d ≡ d) × (result.n ≡ n) × (result.words ≡ words) }
    {
        Modulus { d, n, words }
    }

    // The modulus with the n words of a list.
    pub fn load(p: u32, n: u32, t: &[Word]) -> Modulus
        requires prime { (2 ≤ p) × (p ≤ 2 ^ 20) }
        requires degree { (1 ≤ n) × (n ≤ 16) }
        requires words { Words p n t.now }
        ensures { (result.d.p ≡ p) × (result.n ≡ n) × (result.words ≡ padded t.now) }
    {
        Modulus::new(Barrett::new(p as u64), n as usize, load(t))
    }
}
