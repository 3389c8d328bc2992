// The conversion of a table by a matrix: the product of the matrix with each group. On a refusal the list lent for the image is as found.
ghost use Rattle.std.specs.Prelude.{◌≡◌};
ghost use Rattle.bymatrix.specs.ByMatrix.{by_matrix, by_matrix_number, by_matrix_output};
ghost use Rattle.refusal.specs.Number.{number_of};

use crate::rows::{is_square, load_rows};
use array::Word;
use modular::barrett::Barrett;
use refusal::Refusal;
use refusal::sent::{have_words, sent_with};
use table::convert::convert_groups;
use table::number::lengths;

// 1, 2, 3, 9, 10 and 4.
fn check(p: u32, n: u32, matrix: &[Word], table: &[Word], out: &[Word]) -> Result<(), Refusal>
    ensures { number_of result ≡ by_matrix_number p n matrix.now table.now out.now }
{
    sent_with(p, n, is_square(n, matrix), &[], &[])?;
    lengths(n as usize, table, out)?;
    if !have_words(p, &[matrix, table]) {
        return Err(Refusal::Word);
    }
    Ok(())
}

// The products of the matrix with the groups of a table, where no refusal applies.
fn convert_table(p: u32, n: u32, matrix: &[Word], table: &[Word], out: &mut [Word])
    requires { by_matrix_number p n matrix.now table.now out.old ≡ 0 }
    ensures { out.new ≡ by_matrix p n matrix.now table.now }
{
    let mut m = [0; 256];
    load_rows(n as usize, matrix, &mut m);
    convert_groups(Barrett::new(p as u64), n as usize, &m, table, out);
}

// The image of a table whose k-th group is the product of the matrix with the table's k-th group.
pub fn convert_by_matrix(
    p: u32,
    n: u32,
    matrix: &[Word],
    table: &[Word],
    out: &mut [Word],
) -> Result<(), Refusal>
    ensures value { number_of result ≡ by_matrix_number p n matrix.now table.now out.old }
    ensures out_after { out.new ≡ by_matrix_output p n matrix.now table.now out.old }
{
    check(p, n, matrix, table, out)?;
    convert_table(p, n, matrix, table, out);
    Ok(())
}
