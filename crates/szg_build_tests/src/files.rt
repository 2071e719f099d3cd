//! Helpers for tests: a fixture is read, and a table is written.

use std::alloc::Global;
use std::fmt::Debug;
use std::process::Abort;
use szg_file::{ReadFault, Table, file_len, read_bytes, write};
use szg_fixtures::Fixture;
use szg_io::Std;
use szg_values::Material;

/// The value of a call that must succeed.
pub fn made<T, E: Debug>(rt: &impl Abort, answer: Result<T, E>) -> T {
    match answer {
        Ok(made) => made,
        Err(fault) => panic!(rt; "{fault:?}"),
    }
}

/// The result of reading the file's bytes.
pub fn answer(rt: &(impl Abort + Alloc<A = Global>), file: &Fixture) -> Result<Table, ReadFault> {
    let material = made(rt, Material::parse(file.name));
    read_bytes(rt.alloc(), material, file.kind, &file.bytes)
}

/// The table is written as these bytes.
pub fn check_written(rt: &(impl Abort + Alloc<A = Global>), table: &Table, bytes: &[u8]) {
    let mut output = Std::new(Vec::new(rt.alloc()));
    assert!(rt; write(table, &mut output).is_ok() && file_len(table) == bytes.len() as u64);
    assert!(rt; output.inner().as_slice() == bytes);
}
