// The matrices of a pair's two maps. The checker's refusals are the call's own, with 3 also where a list lent for a matrix has not n·n words; on a refusal both
// lists are as found.
ghost use Rattle.std.specs.Prelude.{◌≡◌, ◌*◌, ◌^◌, ◌≤◌, length};
ghost use Rattle.array.specs.Words.{Words};
ghost use Rattle.bymatrix.specs.ByMatrix.{matrix_of, matrices_number, forward_output, back_output};
ghost use Rattle.refusal.specs.Number.{number_of};

use crate::rows::{is_square, store_rows};
use array::Word;
use array::copy::load;
use matrix::powers::powers;
use pair::checker::check_with_output;
use refusal::Refusal;
use residue::modulus::Modulus;

// The matrix of u ↦ u(S) modulo T, row after row.
fn write_matrix(p: u32, n: u32, t: &[Word], s: &[Word], out: &mut [Word])
    requires sizes { (2 ≤ p) × (p ≤ 2 ^ 20) × (1 ≤ n) × (n ≤ 16) × (length out.old ≡ n * n) }
    requires words { Words p n t.now × Words p n s.now }
    ensures { out.new ≡ matrix_of p n t.now s.now }
{
    let mut m = [0; 256];
    powers(&Modulus::load(p, n, t), &load(s), &mut m);
    store_rows(n as usize, &m, out);
}

// The matrix of the forward map, whose columns are the powers of S modulo T2, and that of the backward map, whose columns are the powers of R modulo T1.
pub fn matrices(
    p: u32,
    n: u32,
    t1: &[Word],
    t2: &[Word],
    s: &[Word],
    r: &[Word],
    forward: &mut [Word],
    back: &mut [Word],
) -> Result<(), Refusal>
    ensures value { number_of result ≡ matrices_number p n t1.now t2.now s.now r.now forward.old back.old }
    ensures forward_after { forward.new ≡ forward_output p n t1.now t2.now s.now r.now forward.old back.old }
    ensures back_after { back.new ≡ back_output p n t1.now t2.now s.now r.now forward.old back.old }
{
    let exact = is_square(n, forward) & is_square(n, back);
    check_with_output(p, n, t1, t2, s, r, exact)?;
    write_matrix(p, n, t2, s, forward);
    write_matrix(p, n, t1, r, back);
    Ok(())
}
