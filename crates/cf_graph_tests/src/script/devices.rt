//! A reader and a writer over memory that fail at a given call, and a writer that takes no memory.
use std::io;
use std::io::{ErrorKind, Read, Write};

/// Gives one byte a call, and fails once it was called so many times.
#[derive(Drop)]
pub(crate) struct Dripping<'a> {
    pub(crate) rest: &'a [u8],
    pub(crate) calls: u64,
    pub(crate) kind: ErrorKind,
}

impl Read for Dripping<'_> {
    fn read(&mut self, buf: &mut [u8]) -> io::Result<usize> {
        if self.calls == 0 {
            return Err(io::Error::from(self.kind));
        }
        self.calls -= 1;
        if self.rest.is_empty() || buf.is_empty() {
            return Ok(0);
        }
        buf[0] = self.rest[0];
        self.rest = &self.rest[1..];
        Ok(1)
    }
}

/// What a writer does once it was called so many times.
#[derive(Clone, Copy, PartialEq, Eq, Debug)]
pub(crate) enum Then {
    Fails,
    TakesNothing,
}

/// Takes one byte a call, until it was called so many times.
#[derive(Drop)]
pub(crate) struct Sipping {
    pub(crate) held: Vec<u8>,
    pub(crate) calls: u64,
    pub(crate) then: Then,
    pub(crate) flushes: bool,
}

impl Write for Sipping {
    fn write(&mut self, buf: &[u8]) -> io::Result<usize> {
        if self.calls == 0 {
            return match self.then {
                Then::Fails => Err(io::Error::from(ErrorKind::Interrupted)),
                Then::TakesNothing => Ok(0),
            };
        }
        self.calls -= 1;
        if buf.is_empty() {
            return Ok(0);
        }
        self.held.push(buf[0])?;
        Ok(1)
    }

    fn flush(&mut self) -> io::Result<()> {
        if self.flushes {
            Ok(())
        } else {
            Err(io::Error::from(ErrorKind::Other))
        }
    }
}

/// Takes what fits into the bytes that it has, and no memory.
#[derive(Drop)]
pub(crate) struct Fixed {
    pub(crate) held: [u8; 128],
    pub(crate) count: usize,
}

impl Write for Fixed {
    fn write(&mut self, buf: &[u8]) -> io::Result<usize> {
        if buf.is_empty() || self.count >= 128 {
            return Ok(0);
        }
        self.held[self.count] = buf[0];
        self.count += 1;
        Ok(1)
    }

    fn flush(&mut self) -> io::Result<()> {
        Ok(())
    }
}
