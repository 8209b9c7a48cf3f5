use inc_text::{ReadFault, Reading, Writing, read_file, write_whole};
use std::alloc::{AllocError, Global};
use std::io;
use std::io::{Read, Write};
use std::test::Fail;

/// A reader over memory: so many bytes of `a`, a few at a time, and then the end or an error.
#[derive(Drop)]
struct Script {
    left: usize,
    piece: usize,
    fails: bool,
}

impl Read for Script {
    fn read(&mut self, into: &mut [u8]) -> io::Result<usize> {
        if self.left == 0 && self.fails {
            return Err(io::Error::from(io::ErrorKind::Other));
        }
        let count = self.left.min(self.piece).min(into.len());
        self.left -= count;
        into[..count].fill(b'a');
        Ok(count)
    }
}

#[test]
fn files_are_read_whole(rt: HostRuntime) -> Result<(), Fail> {
    let cases = [
        (3, 3),
        (3, 1),
        (0, 1),
        (200_000, 7_000),
        (16_777_216, 1_000_000),
    ];
    for (left, piece) in cases {
        let script = Script {
            left,
            piece,
            fails: false,
        };
        let read = read_file(rt.alloc(), &mut Reading::new(script), left)?;
        assert_eq!(rt; read.len(), left);
        assert!(rt; read.iter().all(|b| *b == b'a'));
    }
    Ok(())
}

/// Reads a script to its end, where more is expected than it has.
fn read_fault(alloc: Global, script: Script) -> Result<Option<ReadFault>, AllocError> {
    Ok(read_file(alloc, &mut Reading::new(script), 100_000).err())
}

#[test]
fn read_faults(rt: HostRuntime) -> Result<(), Fail> {
    let failing = Script {
        left: 2,
        piece: 2,
        fails: true,
    };
    assert_eq!(rt; read_fault(rt.alloc(), failing)?, Some(ReadFault::Read));
    let long = Script {
        left: 16_777_217,
        piece: 65_536,
        fails: false,
    };
    assert_eq!(rt; read_fault(rt.alloc(), long)?, Some(ReadFault::TooLong));
    let endless = Script {
        left: usize::MAX,
        piece: 65_536,
        fails: true,
    };
    assert_eq!(rt; read_fault(rt.alloc(), endless)?, Some(ReadFault::TooLong));
    Ok(())
}

/// A writer that takes a byte at a time, and none after so many.
#[derive(Drop)]
struct Narrow {
    room: usize,
    taken: Vec<u8>,
}

impl Write for Narrow {
    fn write(&mut self, piece: &[u8]) -> io::Result<usize> {
        match piece.first() {
            Some(b) if self.taken.len() < self.room => {
                self.taken.push(*b)?;
                Ok(1)
            }
            _ => Ok(0),
        }
    }

    fn flush(&mut self) -> io::Result<()> {
        Ok(())
    }
}

#[test]
fn writes_to_the_end_or_a_front(rt: HostRuntime) {
    for room in 0..6 {
        let taken = Vec::new(rt.alloc());
        let mut w = Writing::new(Narrow { room, taken });
        assert_eq!(rt; write_whole(&mut w, b"text").is_ok(), room >= 4);
    }
}
