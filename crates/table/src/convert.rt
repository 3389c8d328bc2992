// The images of a table's groups under u ↦ u(S) modulo T. The powers of S are worked out once, as a matrix that each group is multiplied by.
ghost use Rattle.std.specs.Prelude.{◌≡◌, ◌/◌, ◌^◌, ◌≤◌, length};
ghost use Rattle.array.specs.Words.{Words};
ghost use Rattle.matrix.specs.Matrix.{matrix_product, Rows};
ghost use Rattle.table.specs.Table.{each_group, converted, table_number};

use array::Word;
use array::copy::load;
use matrix::powers::powers;
use matrix::words::multiply;
use modular::barrett::Barrett;
use residue::modulus::Modulus;

// The products of a matrix with the groups of a table, one after the other: the one conversion of tables, by substitution and by a matrix that is sent.
// By number and not in chunks: `multiply` loads 16 words without a loop, so it reads past its group.
pub fn convert_groups(d: Barrett, n: usize, m: &[u64; 256], table: &[Word], out: &mut [Word])
    requires degree { (1 ≤ n) × (n ≤ 16) }
    requires rows { Rows d.p n m.now }
    requires convertible { table_number d.p n table.now out.old ≡ 0 }
    ensures { out.new ≡ each_group n (matrix_product d.p n m.now) (length table.now / n) table.now }
{
    for k in 0..table.len() / n {
        let i = k * n;
        multiply(d, n, m, &table[i..], &mut out[i..i + n]);
    }
}

// The images of a table's groups, where 9, 10 and 4 do not apply.
pub fn convert(p: u32, n: u32, t: &[Word], s: &[Word], table: &[Word], out: &mut [Word])
    requires sizes { (2 ≤ p) × (p ≤ 2 ^ 20) × (1 ≤ n) × (n ≤ 16) }
    requires words { Words p n t.now × Words p n s.now }
    requires convertible { table_number p n table.now out.old ≡ 0 }
    ensures { out.new ≡ converted p n t.now s.now table.now }
{
    let modulus = Modulus::load(p, n, t);
    let image = load(s);
    let mut m = [0; 256];
    powers(&modulus, &image, &mut m);
    convert_groups(modulus.d, n as usize, &m, table, out);
}
