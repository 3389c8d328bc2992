// The program, from a reader to a writer.
ghost use Rattle.std.specs.Prelude.{◌≡◌, ◌≤◌, ◌⊎◌, List, ℕ, length, take, IfOk, OnOk, OnErr, IfSome};
ghost use Rattle.std.specs.Io.KnownBytes.{Appends, Consumes, IsAtEnd};
ghost use Rattle.answer.specs.Answer.{answer_text};

use crate::print::answer;
use std::io;
use std::io::{ErrorKind, Read, Write};

// Reads until the card is full or the input ends: how many bytes were read. Where a read fails, the bytes read before it are lost.
fn read_card<R: Read>(reader: &mut R, card: &mut [u8; 167]) -> io::Result<usize>
    ensures within { IfOk result (λ n. n ≤ 167) }
    ensures bytes { IfOk result (λ n. Consumes (R.remaining reader.old) (R.remaining reader.new) (take n card.new)) }
    ensures whole { IfOk result (λ n. (n ≡ 167) ⊎ IsAtEnd (R.remaining reader.new)) }
    ensures failed { OnErr result ((bytes : List ℕ) × (length bytes ≤ 167)
        × Consumes (R.remaining reader.old) (R.remaining reader.new) bytes) }
{
    let mut at = 0;
    while at < 167 {
        let n = reader.read(&mut card[at..])?;
        if n == 0 {
            break;
        }
        at += n;
    }
    Ok(at)
}

// Writes all of the text; where a write fails or takes nothing, a first part of it was written.
fn write_text<W: Write>(writer: &mut W, text: &[u8]) -> io::Result<()>
    ensures whole { OnOk result (Appends (W.contents writer.old) (W.contents writer.new) text.now) }
    ensures failed { OnErr result ((k : ℕ) × Appends (W.contents writer.old) (W.contents writer.new) (take k text.now)) }
{
    let mut at = 0;
    while at < text.len() {
        let n = writer.write(&text[at..])?;
        if n == 0 {
            return Err(ErrorKind::WriteZero.into());
        }
        at += n;
    }
    Ok(())
}

// Reads a card and writes the answer. The buffer holds one byte more than the longest card: an input that fills it is too long, whatever follows. Where
// the reader's bytes are known, the answer is that to all of them, and the bytes of the card are those that it lost. Where a read or a write fails, the
// bytes read before are lost, and a first part of the answer to them was written, or none.
pub fn run<R: Read, W: Write>(reader: &mut R, writer: &mut W) -> io::Result<()>
    ensures answered { OnOk result (IfSome (R.remaining reader.old)
        (λ bytes. Appends (W.contents writer.old) (W.contents writer.new) (answer_text bytes))) }
    ensures card { OnOk result ((bytes : List ℕ) × (length bytes ≤ 167)
        × Consumes (R.remaining reader.old) (R.remaining reader.new) bytes
        × Appends (W.contents writer.old) (W.contents writer.new) (answer_text bytes)) }
    ensures failed { OnErr result ((bytes : List ℕ) × (k : ℕ) × (length bytes ≤ 167)
        × Consumes (R.remaining reader.old) (R.remaining reader.new) bytes
        × Appends (W.contents writer.old) (W.contents writer.new) (take k (answer_text bytes))) }
{
    let mut card = [0u8; 167];
    let n = read_card(reader, &mut card)?;
    let mut text = [0u8; 338];
    let k = answer(&card[..n], &mut text);
    write_text(writer, &text[..k])
}
