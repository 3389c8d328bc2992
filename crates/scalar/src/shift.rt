// The matrix M − z.
ghost use Rattle.std.specs.Prelude.{◌^◌, ◌≤◌, ◌<◌};
ghost use Rattle.array.specs.Array.{Square};
ghost use Rattle.scalar.specs.Shifted.{Shifted};

use modular::word::sub;

// Makes the matrix m the matrix m − z.
pub fn minus(p: u64, n: usize, z: u64, m: &mut [u64; 256])
    requires sizes { (p ≤ 2 ^ 20) × (n ≤ 16) × (z < p) }
    requires square { Square p n m.old }
    ensures { Shifted p n z m.old m.new }
{
    for i in 0..n {
        let k = 16 * i + i;
        m[k] = sub(p, m[k], z);
    }
}
