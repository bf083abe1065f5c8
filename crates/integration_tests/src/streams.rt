//! Readers that give few bytes a read and count, and writers that take three bytes a write, and fail.
use std::io;
use std::io::{Error, ErrorKind, Read, Write};

/// Gives at most so many bytes a read, and fails after so many reads.
#[derive(Drop)]
pub(crate) struct Trickle<'a> {
    /// What is left to be read.
    pub rest: &'a [u8],
    /// The most bytes of a read.
    pub most: usize,
    /// How many more reads are answered.
    pub reads: u64,
}

impl Read for Trickle<'_> {
    fn read(&mut self, buf: &mut [u8]) -> io::Result<usize> {
        if self.reads == 0 {
            return Err(Error::from(ErrorKind::Other));
        }
        self.reads -= 1;
        let n = self.most.min(self.rest.len()).min(buf.len());
        let (piece, later) = self.rest.split_at(n);
        buf[..n].copy_from_slice(piece);
        self.rest = later;
        Ok(n)
    }
}

/// Takes three bytes a write; after so many writes it fails, or takes none.
#[derive(Drop)]
pub(crate) struct Narrow {
    /// What was taken.
    pub held: Vec<u8>,
    /// How many more writes take something.
    pub writes: u64,
    /// Whether the writes after those fail with an error.
    pub fails: bool,
}

impl Write for Narrow {
    fn write(&mut self, buf: &[u8]) -> io::Result<usize> {
        if self.writes == 0 {
            return if self.fails {
                Err(Error::from(ErrorKind::Other))
            } else {
                Ok(0)
            };
        }
        self.writes -= 1;
        let n = buf.len().min(3);
        self.held.extend_from_slice(&buf[..n])?;
        Ok(n)
    }

    fn flush(&mut self) -> io::Result<()> {
        Ok(())
    }
}
