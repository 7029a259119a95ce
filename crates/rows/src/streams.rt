//! A reader of given bytes that may fail behind them, and a writer with room for so many bytes.

use std::alloc::Global;
use std::io::{self, ErrorKind, Read, Write};

/// Gives its bytes, and fails where they end if it has a failure.
#[derive(Drop)]
pub struct Input<'a> {
    bytes: &'a [u8],
    failure: Option<ErrorKind>,
}

impl<'a> Input<'a> {
    pub fn new(bytes: &'a [u8], failure: Option<ErrorKind>) -> Input<'a> {
        Input { bytes, failure }
    }
}

impl Read for Input<'_> {
    fn read(&mut self, buf: &mut [u8]) -> io::Result<usize> {
        match self.failure {
            Some(kind) if self.bytes.is_empty() => Err(io::Error::from(kind)),
            _ => self.bytes.read(buf),
        }
    }
}

/// Takes so many bytes, and fails at the next.
#[derive(Drop)]
pub struct Output {
    pub taken: Vec<u8>,
    room: usize,
}

impl Output {
    pub fn new(alloc: Global, room: usize) -> Output {
        Output {
            taken: Vec::new(alloc),
            room,
        }
    }
}

impl Write for Output {
    fn write(&mut self, buf: &[u8]) -> io::Result<usize> {
        if self.room == 0 {
            return Err(io::Error::from(ErrorKind::BrokenPipe));
        }
        let count = self.room.min(buf.len());
        self.taken.extend_from_slice(&buf[..count])?;
        self.room -= count;
        Ok(count)
    }

    fn flush(&mut self) -> io::Result<()> {
        Ok(())
    }
}
