// The conjugates S, S^p, S^(p²), … modulo T, by one matrix of u ↦ u^p. Each is inserted into the list of those before it, which stays in ascending order.
ghost use mathlib.Core.List.{flatten};
ghost use Rattle.std.specs.Prelude.{◌≡◌, ◌*◌, ◌^◌, ◌≤◌, length, take};
ghost use Rattle.algebra.specs.Prime.{Prime};
ghost use Rattle.array.specs.Array.{Holds};
ghost use Rattle.array.specs.Words.{Words};
ghost use Rattle.matrix.specs.Matrix.{Frobenius};
ghost use Rattle.quotient.specs.Residue.{conjugate};
ghost use Rattle.sorting.specs.Sorting.{sorted};

use array::Word;
use array::copy::load;
use matrix::frobenius::frobenius;
use matrix::product::products;
use residue::modulus::Modulus;
use sorting::insert::insert;

// The n conjugates of S in ascending order.
fn sorted_conjugates(t: &Modulus, m: &[u64; 256], s: &[u64; 16], out: &mut [Word])
    requires prime { Prime t.now.d.p }
    requires room { length out.old ≡ t.now.n * t.now.n }
    requires holds { Frobenius t.now.d.p t.now.n (take t.now.n t.now.words) m.now × Holds t.now.d.p t.now.n s.now }
    ensures { out.new ≡ flatten (sorted (conjugate t.now.d.p (take t.now.n t.now.words) (take t.now.n s.now)) t.now.n) }
{
    let n = t.n;
    let mut u = *s;
    for k in 0..n {
        insert(n, k, &u, out);
        u = products(t.d, n, n, m, &u);
    }
}

// The same for lists of n words.
pub fn write_conjugates(p: u32, n: u32, t: &[Word], s: &[Word], out: &mut [Word])
    requires prime { Prime p }
    requires sizes { (p ≤ 2 ^ 20) × (1 ≤ n) × (n ≤ 16) × (length out.old ≡ n * n) }
    requires words { Words p n t.now × Words p n s.now }
    ensures { out.new ≡ flatten (sorted (conjugate p t.now s.now) n) }
{
    let modulus = Modulus::load(p, n, t);
    let mut m = [0; 256];
    frobenius(&modulus, &mut m);
    sorted_conjugates(&modulus, &m, &load(s), out);
}
