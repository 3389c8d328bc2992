// The report: the records in order, a line each, then the two totals.
ghost use Rattle.std.specs.Prelude.{[], ◌∷◌, ◌≡◌, ◌+◌, ◌*◌, ◌≤◌, length};
ghost use Rattle.text.specs.Text.{Appended};
ghost use Rattle.ledger.specs.Ledger.{most_records, records_of, letter, number, line, lines, report};

use crate::total::total;
use crate::{Direction, Ledger, Record};
use text::bytes::put_byte;
use text::decimal::{decimal_length, put_decimal};

// `F` or `B`.
fn letter(direction: Direction) -> u8
    ensures { (result ∷ []) ≡ letter direction }
{
    match direction {
        Direction::Forward => b'F',
        Direction::Back => b'B',
    }
}

// A decimal number and a newline.
fn put_number(text: &mut [u8], at: usize, k: u64) -> usize
    requires { at + length (number k) ≤ length text.old }
    ensures { Appended at (number k) text.old text.new result }
{
    let end = put_decimal(text, at, k);
    put_byte(text, end, b'\n')
}

// The line of a record.
fn put_record(text: &mut [u8], at: usize, entry: Record) -> usize
    requires { at + length (line entry) ≤ length text.old }
    ensures { Appended at (line entry) text.old text.new result }
{
    let blank = put_byte(text, at, letter(entry.direction));
    let digits = put_byte(text, blank, b' ');
    put_number(text, digits, entry.residues as u64)
}

// The lines of the records, in order.
fn put_records(text: &mut [u8], records: &[Record]) -> usize
    requires { length (lines records.now) ≤ length text.old }
    ensures { Appended 0 (lines records.now) text.old text.new result }
{
    let mut end = 0;
    for entry in records {
        end = put_record(text, end, *entry);
    }
    end
}

// The report, into a list of its length.
pub fn put_report(text: &mut [u8], ledger: Ledger)
    requires { (ledger.count ≤ most_records) × (length text.old ≡ length (report (records_of ledger))) }
    ensures { text.new ≡ report (records_of ledger) }
{
    let records = ledger.records();
    let totals = put_records(text, records);
    let back = put_number(text, totals, total(Direction::Forward, records));
    put_number(text, back, total(Direction::Back, records));
}

// How long a number and its newline are: 64 bits have up to 20 digits.
fn number_length(k: u64) -> usize
    ensures { (result ≡ length (number k)) × (result ≤ 21) }
{
    decimal_length(k) + 1
}

// How long the line of a record is.
fn line_length(entry: Record) -> usize
    ensures { (result ≡ length (line entry)) × (result ≤ 23) }
{
    number_length(entry.residues as u64) + 2
}

// How long the lines of the records are.
fn lines_length(records: &[Record]) -> usize
    requires { length records.now ≤ most_records }
    ensures { (result ≡ length (lines records.now)) × (result ≤ most_records * 23) }
{
    // A `for`: that `.map(..).sum()` is at most 23 for each record, so that it fits, has no proof.
    let mut sum = 0;
    for entry in records {
        sum += line_length(*entry);
    }
    sum
}

// How long the report is.
pub fn report_length(ledger: Ledger) -> usize
    requires { ledger.count ≤ most_records }
    ensures { result ≡ length (report (records_of ledger)) }
{
    let records = ledger.records();
    let forward = number_length(total(Direction::Forward, records));
    let back = number_length(total(Direction::Back, records));
    lines_length(records) + forward + back
}
