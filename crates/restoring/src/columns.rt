// The columns of a table: column j has the words j, j + n, j + 2·n, …. A word is restored as the sum of its column up to it.
ghost use Rattle.std.specs.Prelude.{◌≡◌, ◌+◌, ◌/◌, ◌≤◌, length};
ghost use Rattle.std.proofs.lemmas.List.Edits.{sets};
ghost use Rattle.restoring.specs.Clauses.{Whole, Columns, added, width};
ghost use Rattle.differences.specs.Differences.{restored};

use array::Word;
use differences::wrapped::plus;

// W sums of columns that stand side by side, each with its word of the table from word k on: a processor adds them at once.
fn add_row<const W: usize>(sums: &mut [Word; W], k: usize, table: &[Word])
    requires { k + W ≤ length table.now }
    ensures { sums.new ≡ added k table.now sums.old }
{
    for c in 0..W {
        sums[c] = plus(sums[c], table[k + c]);
    }
}

// The sums into a list, from word k on. Not by `copy_from_slice`: it tests on each row whether the two lists overlap, which takes longer than the sums.
fn store_row<const W: usize>(sums: &[Word; W], k: usize, out: &mut [Word])
    requires { k + W ≤ length out.old }
    ensures { out.new ≡ sets out.old k sums.now }
{
    for c in 0..W {
        out[k + c] = sums[c];
    }
}

// Columns j to j + W − 1, of a table of so many rows.
fn restore_lanes<const W: usize>(n: usize, j: usize, rows: usize, table: &[Word], out: &mut [Word])
    requires whole { Whole n table.now out.old }
    requires lanes { (1 ≤ W) × (j + W ≤ n) }
    requires rows { rows ≡ length table.now / n }
    ensures { Columns n j W (length table.now) (restored n table.now) out.old out.new }
{
    let mut sums = [0; W];
    for row in 0..rows {
        let k = row * n + j;
        add_row(&mut sums, k, table);
        store_row(&sums, k, out);
    }
}

// How many columns are restored at a time.
fn width(n: usize) -> usize
    ensures { result ≡ width n }
{
    match n {
        0..4 => 1,
        4..8 => 4,
        _ => 8,
    }
}

// The columns from column j on, as many as are restored at a time.
fn restore_some(n: usize, j: usize, rows: usize, table: &[Word], out: &mut [Word])
    requires whole { Whole n table.now out.old }
    requires inside { j + width n ≤ n }
    requires rows { rows ≡ length table.now / n }
    ensures { Columns n j (width n) (length table.now) (restored n table.now) out.old out.new }
{
    match n {
        0..4 => restore_lanes::<1>(n, j, rows, table, out),
        4..8 => restore_lanes::<4>(n, j, rows, table, out),
        _ => restore_lanes::<8>(n, j, rows, table, out),
    }
}

// All columns. Those that are restored last end with the last column, so that some columns may be restored twice.
pub fn restore_columns(n: usize, table: &[Word], out: &mut [Word])
    requires { Whole n table.now out.old }
    ensures { out.new ≡ restored n table.now }
{
    // Counted once, not in each pass: a division takes as long as a few rows.
    let rows = table.len() / n;
    let w = width(n);
    for j in (0..n - w).step_by(w) {
        restore_some(n, j, rows, table, out);
    }
    restore_some(n, n - w, rows, table, out);
}
