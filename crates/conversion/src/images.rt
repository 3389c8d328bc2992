// The images of a table's groups under the map of a direction.
ghost use Rattle.std.specs.Prelude.{true, [], ◌∷◌, ◌≡◌, take};
ghost use Rattle.held.specs.Held.{view, valid};
ghost use Rattle.table.specs.Table.{converted, table_number};
ghost use Rattle.work.specs.Work.{is_paired};
ghost use Rattle.conversion.specs.Conversion.{images_in};

use array::Word;
use held::value::front;
use held::{DEGREE, Held};
use ledger::Direction;
use table::convert::convert as convert_table;

// By the first n words of two arrays.
fn convert_words(
    p: u32,
    n: u32,
    t: [Word; DEGREE],
    s: [Word; DEGREE],
    table: &[Word],
    out: &mut [Word],
)
    requires valid { valid p n (take n t ∷ take n s ∷ []) ≡ true }
    requires convertible { table_number p n table.now out.old ≡ 0 }
    ensures { out.new ≡ converted p n (take n t) (take n s) table.now }
{
    convert_table(p, n, front(&t, n), front(&s, n), table, out);
}

// By what is held, where it is paired and 9, 10 and 4 do not apply.
pub fn images(direction: Direction, held: Held, table: &[Word], out: &mut [Word])
    requires paired { is_paired (view held) ≡ true }
    requires convertible { table_number held.p held.n table.now out.old ≡ 0 }
    ensures { out.new ≡ images_in direction held table.now }
{
    match direction {
        Direction::Forward => convert_words(held.p, held.n, held.t2, held.s, table, out),
        Direction::Back => convert_words(held.p, held.n, held.t1, held.r, table, out),
    }
}
