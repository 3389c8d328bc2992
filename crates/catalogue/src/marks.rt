// What the sieve left unmarked: the marks size to 2·size − 1, size = p^n, are those of the polynomials of degree n.
ghost use Rattle.std.specs.Prelude.{◌≡◌, ◌*◌, ◌≤◌, length};
ghost use mathlib.Core.List.{map, flatten};
ghost use Rattle.array.specs.Digits.{digits};
ghost use Rattle.catalogue.specs.Marks.{unmarked};

use array::Word;
use sieve::digits::write_digits;

// How many are not marked.
pub fn count_unmarked(size: usize, marks: &[u8; 131072]) -> u32
    requires { (size ≤ 65536) × (length marks.now ≡ 131072) }
    ensures { result ≡ length (unmarked size marks.now) }
{
    let mut count = 0;
    for mark in &marks[size..2 * size] {
        if *mark == 0 {
            count += 1;
        }
    }
    count
}

// The n words of each that is not marked, one after the other.
pub fn write_unmarked(p: u32, n: usize, size: usize, marks: &[u8; 131072], out: &mut [Word])
    requires sizes { (1 ≤ p) × (n ≤ 16) × (size ≤ 65536) × (length marks.now ≡ 131072) }
    requires room { length out.old ≡ n * length (unmarked size marks.now) }
    ensures { out.new ≡ flatten (map (digits p n) (unmarked size marks.now)) }
{
    let mut at = 0;
    for code in 0..size {
        if marks[size + code] == 0 {
            let next = at + n;
            write_digits(p, code as u32, &mut out[at..next]);
            at = next;
        }
    }
}
