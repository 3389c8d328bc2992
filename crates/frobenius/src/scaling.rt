// The scaling k·v of an eigenvector v whose n-th power is a given number, with the smallest k.
ghost use Rattle.std.specs.Prelude.{◌≡◌, ◌≤◌, ◌<◌, take};
ghost use Rattle.array.specs.Array.{padded, Holds};
ghost use Rattle.quotient.specs.Residue.{scale};
ghost use Rattle.roots.specs.Roots.{root_of_ratio, Admissible, OrderModulo, Radicand};

use crate::eigenvector::Normalised;
use roots::root::{Group, root_of_ratio};
use scalar::vector::scale;

// k·v for the smallest k from 1 to p − 1 with k^n·v^n = a.
pub fn scaling(p: u64, n: usize, z: u64, by: Group, a: u64, v: Normalised) -> [u64; 16]
    requires admissible { Admissible p n }
    requires group { (by.generator < p) × (by.index ≤ 1048576) }
    requires order { (z < p) × OrderModulo p n z }
    requires radicand { Radicand p n z a × Radicand p n z v.constant }
    requires holds { Holds p n v.vector }
    ensures { result ≡ padded (scale p (root_of_ratio p n a v.constant) (take n v.vector)) }
{
    let k = root_of_ratio(p, n as u64, z, by, a, v.constant);
    let vector = v.vector;
    scale(p, n, k, &vector)
}
