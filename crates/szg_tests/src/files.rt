//! Helpers for tests of whole files: a fixture is read, changed, written or refused.

use std::alloc::{AllocError, Global};
use std::fmt::Debug;
use std::process::Abort;
use szg_file::{ReadFault, Reason, Table, file_len, read, read_bytes, write};
use szg_fixtures::Fixture;
use szg_io::Std;
use szg_values::Material;

/// The value of a call that must succeed.
pub fn made<T, E: Debug>(rt: &impl Abort, answer: Result<T, E>) -> T {
    match answer {
        Ok(made) => made,
        Err(fault) => panic!(rt; "{fault:?}"),
    }
}

/// Appends an item; there must be memory for it.
pub fn push<T: Drop>(rt: &impl Abort, list: &mut Vec<T>, item: T) {
    assert!(rt; list.push(item).is_ok());
}

pub fn material(rt: &impl Abort, file: &Fixture) -> Material {
    made(rt, Material::parse(file.name))
}

/// The result of reading the file's bytes, all at once.
pub fn answer(rt: &(impl Abort + Alloc<A = Global>), file: &Fixture) -> Result<Table, ReadFault> {
    let mut input = Std::new(file.bytes.as_slice());
    read(rt.alloc(), material(rt, file), file.kind, &mut input)
}

/// The table is written as these bytes.
pub fn check_written(rt: &(impl Abort + Alloc<A = Global>), table: &Table, bytes: &[u8]) {
    let mut output = Std::new(Vec::new(rt.alloc()));
    assert!(rt; write(table, &mut output).is_ok() && file_len(table) == bytes.len() as u64);
    assert!(rt; output.inner().as_slice() == bytes);
}

/// The table of a file. It is written back byte for byte, and read from the bytes in memory, too.
pub fn accepted(
    rt: &(impl Abort + Alloc<A = Global>),
    file: &Fixture,
    changes: &[(usize, u8)],
) -> Table {
    let file = made(rt, file.changed(rt.alloc(), changes));
    let table = made(rt, answer(rt, &file));
    check_written(rt, &table, &file.bytes);
    assert!(rt; read_bytes(rt.alloc(), material(rt, &file), file.kind, &file.bytes).is_ok());
    table
}

/// The table of an unchanged fixture, which is accepted.
pub fn table_of(rt: &(impl Abort + Alloc<A = Global>), file: Result<Fixture, AllocError>) -> Table {
    accepted(rt, &made(rt, file), &[])
}

/// The file with these changes is refused at this offset, read from a device and from memory.
pub fn check_refused(
    rt: &(impl Abort + Alloc<A = Global>),
    file: &Fixture,
    changes: &[(usize, u8)],
    place: u64,
    reason: Reason,
) {
    let file = made(rt, file.changed(rt.alloc(), changes));
    let want = Some(ReadFault::Refused { place, reason });
    assert!(rt; answer(rt, &file).err() == want, "at {place}");
    let same = read_bytes(rt.alloc(), material(rt, &file), file.kind, &file.bytes).err();
    assert!(rt; same == want, "at {place}");
}
