// Records to values with a number for the direction, and back. Only C has these numbers: a `From`
// would have to stand in ledger, and each function has a definition of its own in specs.
ghost use Rattle.std.specs.List.{All};
ghost use Rattle.std.specs.Prelude.{map, ◌≡◌, ◌≤◌, ◌↔◌, IsTrue, take};
ghost use Rattle.ledger.specs.Ledger.{most_records, none};
ghost use Rattle.cvalue.specs.Values.{direction_of, direction_number, record_of, record_value, up_to};

use crate::{RecordValue, SessionValue};
use ledger::{Direction, Record};

// The direction with this number.
fn direction_of(number: u32) -> Direction
    ensures { result ≡ direction_of number }
{
    match number {
        0 => Direction::Forward,
        _ => Direction::Back,
    }
}

// The number of a direction: 0 is forward, 1 back.
fn direction_number(direction: Direction) -> u32
    ensures { result ≡ direction_number direction }
{
    match direction {
        Direction::Forward => 0,
        Direction::Back => 1,
    }
}

// The record of a value.
fn record_of(v: RecordValue) -> Record
    ensures { result ≡ record_of v }
{
    Record {
        direction: direction_of(v.direction),
        residues: v.residues,
    }
}

// The value of a record.
pub fn record_value(entry: Record) -> RecordValue
    ensures { result ≡ record_value entry }
{
    RecordValue {
        direction: direction_number(entry.direction),
        residues: entry.residues,
    }
}

// Whether each record that counts has a direction.
pub fn have_directions(v: SessionValue) -> bool
    requires { v.records ≤ most_records }
    ensures { IsTrue result ↔ All (λ x. x.direction ≤ 1) (take v.records v.ledger) }
{
    v.ledger[..v.records as usize]
        .iter()
        .all(|x| x.direction <= 1)
}

// The records that count, and none after them.
pub fn records_of(v: SessionValue) -> [Record; 512]
    requires { v.records ≤ most_records }
    ensures { result ≡ up_to most_records none (map record_of (take v.records v.ledger)) }
{
    let nothing = Record {
        direction: Direction::Forward,
        residues: 0,
    };
    let mut records = [nothing; 512];
    for i in 0..v.records as usize {
        records[i] = record_of(v.ledger[i]);
    }
    records
}
