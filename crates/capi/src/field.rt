// The calls on models and pairs.
ghost use Rattle.std.specs.Prelude.{◌≡◌};
ghost use Rattle.irreducible.specs.Irreducible.{irreducible_number};
ghost use Rattle.finder.specs.Finder.{find_number, find_output_s, find_output_r};
ghost use Rattle.maps.specs.Maps.{maps_number, maps_output};
ghost use Rattle.bymatrix.specs.ByMatrix.{matrices_number, forward_output, back_output, by_matrix_number, by_matrix_output};
ghost use Rattle.pair.specs.Pair.{check_number};
ghost use Rattle.sheet.specs.Sheet.{sheet_length, sheet_number, sheet_output};
ghost use Rattle.arithmetic.specs.Calls.{substitute_number, substitute_output, product_number, product_output, power_number, power_output};

use array::Word;
use refusal::number_of;

// Whether T has no monic divisor of degree 1 to n − 1, so that every residue but 0 has an inverse: 0, or 1, 2, 3, 4, 6.
#[unsafe(no_mangle)]
pub extern "C" fn yokebean_irreducible(p: u32, n: u32, t: &[Word]) -> u32
    ensures { result ≡ irreducible_number p n t.now }
{
    number_of(irreducible::call::irreducible(p, n, t))
}

// Whether neither modulus has a monic divisor of degree 1 to n − 1 and the four congruences hold, so that S and R are inverse isomorphisms of fields: 0, or 1, 2, 3, 4,
// 6, 7, 8.
#[unsafe(no_mangle)]
pub extern "C" fn yokebean_check(
    p: u32,
    n: u32,
    t1: &[Word],
    t2: &[Word],
    s: &[Word],
    r: &[Word],
) -> u32
    ensures { result ≡ check_number p n t1.now t2.now s.now r.now }
{
    number_of(pair::checker::check(p, n, t1, t2, s, r))
}

// out := all n polynomials S' with T1(S') = 0 modulo T2, from an accepted pair, in ascending order: 0, or 1, 2, 3, 4, 6, 7, 8.
#[unsafe(no_mangle)]
pub extern "C" fn yokebean_maps(
    p: u32,
    n: u32,
    t1: &[Word],
    t2: &[Word],
    s: &[Word],
    r: &[Word],
    out: &mut [Word],
) -> u32
    ensures value { result ≡ maps_number p n t1.now t2.now s.now r.now out.old }
    ensures out_after { out.new ≡ maps_output p n t1.now t2.now s.now r.now out.old }
{
    number_of(maps::call::maps(p, n, t1, t2, s, r, out))
}

// forward := the matrix of u ↦ u(S) modulo T2, back := that of u ↦ u(R) modulo T1, each row after row: 0, or 1, 2, 3, 4, 6, 7, 8.
#[unsafe(no_mangle)]
pub extern "C" fn yokebean_matrices(
    p: u32,
    n: u32,
    t1: &[Word],
    t2: &[Word],
    s: &[Word],
    r: &[Word],
    forward: &mut [Word],
    back: &mut [Word],
) -> u32
    ensures value { result ≡ matrices_number p n t1.now t2.now s.now r.now forward.old back.old }
    ensures forward_after { forward.new ≡ forward_output p n t1.now t2.now s.now r.now forward.old back.old }
    ensures back_after { back.new ≡ back_output p n t1.now t2.now s.now r.now forward.old back.old }
{
    number_of(bymatrix::build::matrices(p, n, t1, t2, s, r, forward, back))
}

// out := the matrix times each group of n words of the table: 0, or 1, 2, 3, 9, 10, 4.
#[unsafe(no_mangle)]
pub extern "C" fn yokebean_matrix_convert(
    p: u32,
    n: u32,
    matrix: &[Word],
    table: &[Word],
    out: &mut [Word],
) -> u32
    ensures value { result ≡ by_matrix_number p n matrix.now table.now out.old }
    ensures out_after { out.new ≡ by_matrix_output p n matrix.now table.now out.old }
{
    number_of(bymatrix::convert::convert_by_matrix(p, n, matrix, table, out))
}

// out := T1, T2, S and R printed on a sheet: 0, or 1, 2, 3, 4, 6, 7, 8.
#[unsafe(no_mangle)]
pub extern "C" fn yokebean_sheet(
    p: u32,
    n: u32,
    t1: &[Word],
    t2: &[Word],
    s: &[Word],
    r: &[Word],
    out: &mut [u8],
) -> u32
    ensures value { result ≡ sheet_number p n t1.now t2.now s.now r.now out.old }
    ensures out_after { out.new ≡ sheet_output p n t1.now t2.now s.now r.now out.old }
{
    number_of(sheet::print::sheet(p, n, t1, t2, s, r, out))
}

// The length of a sheet for lists of n words.
#[unsafe(no_mangle)]
pub extern "C" fn yokebean_sheet_length(n: u32) -> usize
    ensures { result ≡ sheet_length n }
{
    sheet::print::sheet_length(n)
}

// s and r := the pair of Algorithm 2.1 or 4.1: 0, or 1 to 7.
#[unsafe(no_mangle)]
pub extern "C" fn yokebean_find(
    p: u32,
    n: u32,
    t1: &[Word],
    t2: &[Word],
    s: &mut [Word],
    r: &mut [Word],
) -> u32
    ensures value { result ≡ find_number p n t1.now t2.now s.old r.old }
    ensures s_after { s.new ≡ find_output_s p n t1.now t2.now s.old r.old }
    ensures r_after { r.new ≡ find_output_r p n t1.now t2.now s.old r.old }
{
    number_of(finder::find::find(p, n, t1, t2, s, r))
}

// out := u(S) modulo T: 0, or 1 to 4.
#[unsafe(no_mangle)]
pub extern "C" fn yokebean_substitute(
    p: u32,
    n: u32,
    t: &[Word],
    s: &[Word],
    u: &[Word],
    out: &mut [Word],
) -> u32
    ensures value { result ≡ substitute_number p n t.now s.now u.now out.old }
    ensures out_after { out.new ≡ substitute_output p n t.now s.now u.now out.old }
{
    number_of(arithmetic::call::substitute(p, n, t, s, u, out))
}

// out := u·v modulo T: 0, or 1 to 4.
#[unsafe(no_mangle)]
pub extern "C" fn yokebean_product(
    p: u32,
    n: u32,
    t: &[Word],
    u: &[Word],
    v: &[Word],
    out: &mut [Word],
) -> u32
    ensures value { result ≡ product_number p n t.now u.now v.now out.old }
    ensures out_after { out.new ≡ product_output p n t.now u.now v.now out.old }
{
    number_of(arithmetic::call::product(p, n, t, u, v, out))
}

// out := u^k modulo T: 0, or 1 to 4.
#[unsafe(no_mangle)]
pub extern "C" fn yokebean_power(
    p: u32,
    n: u32,
    t: &[Word],
    u: &[Word],
    k: u64,
    out: &mut [Word],
) -> u32
    ensures value { result ≡ power_number p n t.now u.now out.old }
    ensures out_after { out.new ≡ power_output p n t.now u.now k out.old }
{
    number_of(arithmetic::call::power(p, n, t, u, k, out))
}
