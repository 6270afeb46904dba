//! The loops that read and write all bytes, over readers and writers in memory that give and take one byte at a time, that
//! fail in the middle, and that take no byte.

use qf_base::DeskFault;
use qf_base::streams::{read_all, write_all};
use std::alloc::Global;
use std::io;
use std::io::{ErrorKind, Read, Write};
use std::test::Fail;

// Gives its bytes one at a time. A read at the place `fails_at` fails.
#[derive(Drop)]
struct Slow<'a> {
    bytes: &'a [u8],
    place: usize,
    fails_at: usize,
}

impl Read for Slow<'_> {
    fn read(&mut self, buf: &mut [u8]) -> io::Result<usize> {
        if self.place == self.fails_at {
            return Err(ErrorKind::Other.into());
        }
        if self.place >= self.bytes.len() || buf.is_empty() {
            return Ok(0);
        }
        buf[0] = self.bytes[self.place];
        self.place += 1;
        Ok(1)
    }
}

// Takes its bytes one at a time. Once it holds `room` of them, a write fails, or takes no byte.
#[derive(Drop)]
struct Narrow {
    bytes: Vec<u8>,
    room: usize,
    fails: bool,
}

impl Write for Narrow {
    fn write(&mut self, buf: &[u8]) -> io::Result<usize> {
        if buf.is_empty() {
            return Ok(0);
        }
        if self.bytes.len() >= self.room {
            return if self.fails {
                Err(ErrorKind::Other.into())
            } else {
                Ok(0)
            };
        }
        if self.bytes.push(buf[0]).is_err() {
            return Err(ErrorKind::OutOfMemory.into());
        }
        Ok(1)
    }

    fn flush(&mut self) -> io::Result<()> {
        Ok(())
    }
}

// What is written of a piece to a writer with so much room: the bytes, whether all went well, and the count of faults.
fn written(alloc: Global, room: usize, fails: bool) -> (Vec<u8>, bool, u64) {
    let mut faults = 0;
    let mut writer = Narrow {
        bytes: Vec::new(alloc),
        room,
        fails,
    };
    let ended = write_all(&mut writer, b"abcd", &mut faults);
    (writer.bytes, ended.is_ok(), faults)
}

#[test]
fn streams_are_read_and_written_byte_by_byte(rt: HostRuntime) -> Result<(), Fail> {
    let alloc = rt.alloc();
    let mut faults = 0;
    let mut reader = Slow {
        bytes: b"abcd",
        place: 0,
        fails_at: 9,
    };
    let bytes = read_all(alloc, &mut reader, 4, &mut faults)
        .ok()
        .ok_or("four bytes are read")?;
    assert_eq!(rt; bytes.as_slice(), b"abcd".as_slice());
    let mut reader = Slow {
        bytes: b"abcd",
        place: 0,
        fails_at: 9,
    };
    assert!(rt;
        matches!(
            read_all(alloc, &mut reader, 3, &mut faults),
            Err(DeskFault::TooLong)
        )
    );
    assert_eq!(rt; faults, 0);
    let mut reader = Slow {
        bytes: b"abcd",
        place: 0,
        fails_at: 2,
    };
    assert!(rt;
        matches!(
            read_all(alloc, &mut reader, 4, &mut faults),
            Err(DeskFault::Failed)
        )
    );
    assert_eq!(rt; faults, 1);
    for (room, fails, wanted, well) in [
        (9, false, b"abcd".as_slice(), true),
        (4, true, b"abcd".as_slice(), true),
        (2, true, b"ab".as_slice(), false),
        (2, false, b"ab".as_slice(), false),
        (0, false, b"".as_slice(), false),
    ] {
        let (bytes, ended_well, faults) = written(alloc, room, fails);
        assert_eq!(rt; bytes.as_slice(), wanted);
        assert_eq!(rt; ended_well, well);
        assert_eq!(rt; faults, if well { 0 } else { 1 });
    }
    Ok(())
}
