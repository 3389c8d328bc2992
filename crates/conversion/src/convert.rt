// Forward and back, without the ledger: the record to be added.
ghost use Rattle.std.specs.Prelude.{true, ◌≡◌};
ghost use Rattle.held.specs.Held.{valid_held};
ghost use Rattle.work.specs.Step.{Records};
ghost use Rattle.conversion.specs.Conversion.{convert, convert_output};

use crate::images::images;
use crate::refusals::check;
use array::Word;
use ledger::{Direction, Record};
use refusal::Refusal;
use work::{Recorded, Work};

// Each group of n words of the table becomes its image: 21, 22, 27, 9, 10, 4, 25; `count` records count.
pub fn convert(
    direction: Direction,
    work: Work,
    count: u32,
    table: &[Word],
    out: &mut [Word],
) -> Result<Recorded, Refusal>
    requires { valid_held work.held ≡ true }
    ensures value { Records result (convert direction work count table.now out.old) }
    ensures out_after { out.new ≡ convert_output direction work count table.now out.old }
{
    check(work, count, table, out)?;
    images(direction, work.held, table, out);
    let residues = table.len() / work.held.n as usize;
    let entry = Record {
        direction,
        residues: residues as u32,
    };
    Ok(Recorded { work, entry })
}
