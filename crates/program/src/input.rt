// A reader whose failed reads count as the end of the input, so that a closed standard input is an empty one.
ghost use Rattle.std.specs.Prelude.{IsOk, IfOk, None, take};
ghost use Rattle.std.specs.Io.{ReadsAtMost};
ghost use Rattle.std.specs.Io.KnownBytes.{Consumes, ReadConsumes};

use std::io;
use std::io::Read;

#[derive(Drop)]
pub struct Input<R> {
    pub reader: R,
}

impl<R: Read> Read for Input<R> {
    // What is left is not known, since a read of the reader may fail.
    ghost remaining = { λ _. None };

    // It never fails, and what it gives are bytes that the reader lost.
    fn read(&mut self, buf: &mut [u8]) -> io::Result<usize>
        ensures never_fails { IsOk result }
        ensures given { IfOk result (λ n. Consumes (R.remaining self.old.reader) (R.remaining self.new.reader) (take n buf.new)) }
        ensures bound { ReadsAtMost result buf.new }
        ensures bytes { ReadConsumes None None result buf.new }
    {
        Ok(self.reader.read(buf).unwrap_or(0))
    }
}
