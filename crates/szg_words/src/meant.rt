//! The name that is meant by one with the sides exchanged.
ghost use Rattle.std.specs.Prelude.{IfOk, IfSome, IsOk, string_bytes};
ghost use Rattle.szg_values.specs.Material.{parsed};

use std::alloc::{AllocError, Global};
use szg_named::named_by;
use szg_values::{Material, NameFault};

/// The name that a word means, or its file's name, if that one is refused only for the order of its sides: `KQvK` for
/// `KvKQ` and for `KvKQ.rtbw`. None for another word.
pub fn meant_name(alloc: Global, word: &str) -> Result<Option<String>, AllocError>
    ensures { IfOk result (λ meant. IfSome meant (λ name. IsOk (parsed (string_bytes name)))) }
{
    let name = match named_by(word) {
        Some((name, _)) => name,
        None => word,
    };
    if !matches!(Material::parse(name), Err(NameFault::Sides)) {
        return Ok(None);
    }
    let Some((first, second)) = name.split_once('v') else {
        return Ok(None);
    };
    let meant = format!(in alloc; "{second}v{first}")?;
    if Material::parse(meant.as_str()).is_err() {
        return Ok(None);
    }
    Ok(Some(meant))
}
