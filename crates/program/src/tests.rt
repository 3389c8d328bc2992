// The program over a reader and a writer in memory, and where a read or a write fails.
use crate::input::Input;
use crate::program::run;
use std::io;
use std::io::{ErrorKind, Read, Write};
use std::test::Fail;

// A reader that gives the first bytes of a card and then fails.
#[derive(Drop)]
struct Broken {
    given: bool,
}

impl Read for Broken {
    fn read(&mut self, buf: &mut [u8]) -> io::Result<usize> {
        if self.given || buf.len() < 2 {
            return Err(ErrorKind::Other.into());
        }
        self.given = true;
        buf[0] = 0;
        buf[1] = 3;
        Ok(2)
    }
}

// A writer that takes nothing.
#[derive(Drop)]
struct Full;

impl Write for Full {
    fn write(&mut self, _buf: &[u8]) -> io::Result<usize> {
        Ok(0)
    }

    fn flush(&mut self) -> io::Result<()> {
        Ok(())
    }
}

// The job of example A, and its pair.
#[test]
fn a_job_is_answered(rt: HostRuntime) -> Result<(), Fail> {
    let mut card: &[u8] = b"\x00\x03\x11\x49";
    let mut out = Vec::new(rt.alloc());
    run(&mut card, &mut out)?;
    assert_eq!(rt; out.as_slice(), b"PAIR 0003124966\n".as_slice());
    Ok(())
}

#[test]
fn a_failed_read_is_an_error(rt: HostRuntime) {
    let mut out = Vec::new(rt.alloc());
    assert!(rt; run(&mut Broken { given: false }, &mut out).is_err());
    assert!(rt; out.is_empty());
}

// 0 and 3 alone are no card.
#[test]
fn a_failed_read_of_the_input_is_its_end(rt: HostRuntime) -> Result<(), Fail> {
    let mut out = Vec::new(rt.alloc());
    let mut input = Input {
        reader: Broken { given: false },
    };
    run(&mut input, &mut out)?;
    assert_eq!(rt; out.as_slice(), b"REFUSED 11\n".as_slice());
    Ok(())
}

#[test]
fn a_failed_write_is_an_error(rt: HostRuntime) {
    let mut card: &[u8] = b"\x00\x03\x11\x49";
    assert!(rt; run(&mut card, &mut Full).is_err());
}
