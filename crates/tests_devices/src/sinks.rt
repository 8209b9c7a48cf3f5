//! Writers over memory.
use std::alloc::Global;
use std::io;
use std::io::Write;

/// A writer that holds what it took, a few bytes at a time, and takes nothing once it is full.
#[derive(Drop)]
pub struct Sink {
    pub taken: Vec<u8>,
    pub room: usize,
    pub piece: usize,
}

impl Sink {
    pub fn new(alloc: Global, room: usize, piece: usize) -> Self {
        Sink {
            taken: Vec::new(alloc),
            room,
            piece,
        }
    }
}

impl Write for Sink {
    fn write(&mut self, piece: &[u8]) -> io::Result<usize> {
        let left = self.room.saturating_sub(self.taken.len());
        let count = piece.len().min(self.piece).min(left);
        self.taken.extend_from_slice(&piece[..count])?;
        Ok(count)
    }

    fn flush(&mut self) -> io::Result<()> {
        Ok(())
    }
}
