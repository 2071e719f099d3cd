//! Files written to writers that accept few bytes, or fail.

use crate::files::{answer, made};
use std::alloc::Global;
use std::io::{Error, ErrorKind, Write};
use std::process::Abort;
use szg_file::{Table, WriteFault, write};
use szg_io::{Cut, Std};

/// A writer that accepts `room` bytes, and then fails.
#[derive(Drop)]
struct Narrow {
    held: Vec<u8>,
    room: usize,
}

impl Write for Narrow {
    fn write(&mut self, buf: &[u8]) -> Result<usize, Error> {
        let n = buf.len().min(self.room);
        if n == 0 {
            return Err(Error::from(ErrorKind::BrokenPipe));
        }
        self.held.extend_from_slice(&buf[..n])?;
        self.room -= n;
        Ok(n)
    }

    fn flush(&mut self) -> Result<(), Error> {
        Ok(())
    }
}

/// A writer with room for `room` bytes has exactly the file's first `room` bytes, and the fault has their number.
fn check_narrow(rt: &(impl Abort + Alloc<A = Global>), table: &Table, bytes: &[u8], room: usize) {
    let held = Vec::new(rt.alloc());
    let mut output = Std::new(Narrow { held, room });
    let want = WriteFault { out: room as u64 };
    assert!(rt; write(table, &mut output) == Err(want), "room for {room}");
    let held = output.inner().held.as_slice();
    assert!(rt;
        bytes.starts_with(held) && held.len() == room,
        "room for {room}"
    );
}

#[test]
fn writers_that_fail(rt: HostRuntime) {
    for file in &made(&rt, szg_fixtures::of_all_sections(rt.alloc())) {
        let table = made(&rt, answer(&rt, file));
        for room in 0..file.bytes.len() {
            check_narrow(&rt, &table, &file.bytes, room);
        }
        let mut full = Cut::new(Std::new(Vec::new(rt.alloc())), 0, 0, 0);
        assert!(rt; write(&table, &mut full) == Err(WriteFault { out: 0 }));
    }
}
