// The residues of the records of one direction, together. A value made otherwise may hold records of up to 2^32 − 1 residues, so a total has 64 bits.
ghost use Rattle.std.specs.Prelude.{◌≡◌, ◌≤◌, length};
ghost use Rattle.ledger.specs.Ledger.{most_records, residues_in, total};

use crate::{Direction, Record};

// The residues of a record, where it has the direction.
fn residues_in(direction: Direction, entry: Record) -> u32
    ensures { result ≡ residues_in direction entry }
{
    if entry.direction == direction {
        entry.residues
    } else {
        0
    }
}

// The total of a direction.
pub fn total(direction: Direction, records: &[Record]) -> u64
    requires { length records.now ≤ most_records }
    ensures { result ≡ total direction records.now }
{
    records
        .iter()
        .map(|entry| residues_in(direction, *entry) as u64)
        .sum()
}
