//! Paths without detours.
ghost use Rattle.std.specs.Prelude.{◌≡◌, IfOk, OnOk, map};
ghost use Rattle.szg_sums.specs.Names.{normal, parts_of, with_part};

use std::alloc::{AllocError, Global};

/// Adds a part: an empty one and `.` add nothing, and `..` takes the last one away.
fn add_part(parts: &mut Vec<Vec<u8>>, part: Vec<u8>) -> Result<(), AllocError>
    ensures { OnOk result (map (λ part. part.items) parts.new.items ≡ with_part (map (λ part. part.items) parts.old.items) part.items) }
{
    if part.as_slice() == b"..".as_slice() {
        parts.pop();
    } else if !part.is_empty() && part.as_slice() != b".".as_slice() {
        parts.push(part)?;
    }
    Ok(())
}

/// Returns the parts of a path that are left without detours.
#[tactic(auto, using(crate::proofs::Naming::slash_next, crate::proofs::Naming::byte_next))]
fn parts_of(alloc: Global, path: &[u8]) -> Result<Vec<Vec<u8>>, AllocError>
    ensures { IfOk result (λ parts. map (λ part. part.items) parts.items ≡ parts_of path.now) }
{
    let mut parts = Vec::new(alloc);
    let mut begun = Vec::new(alloc);
    'bytes: for byte in path {
        if *byte == b'/' {
            add_part(&mut parts, begun)?;
            begun = Vec::new(alloc);
        } else {
            begun.push(*byte)?;
        }
    }
    add_part(&mut parts, begun)?;
    Ok(parts)
}

/// Returns a path without detours: its parts, each after a slash, without empty ones and `.`, and without each `..` and the
/// part before it. A `..` at the beginning is left out, since what is before it isn't known.
pub fn normal(alloc: Global, path: &[u8]) -> Result<Vec<u8>, AllocError>
    ensures { IfOk result (λ text. text.items ≡ normal path.now) }
{
    let mut normal = Vec::new(alloc);
    'parts: for part in &parts_of(alloc, path)? {
        normal.push(b'/')?;
        normal.extend_from_slice(part)?;
    }
    Ok(normal)
}
