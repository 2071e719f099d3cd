//! The values of a subtable as they are read from a dump. In form 2, values that are all equal are not listed.
ghost use Rattle.std.specs.Prelude.{◌≡◌, ◌+◌, ◌++◌, ◌<◌, ◌^◌, length, replicate, IfOk};
ghost use Rattle.szg_build.specs.Packed.{values_held};

use std::alloc::{AllocError, Global};

/// The values of a subtable.
#[derive(Drop)]
pub(crate) enum Values {
    /// The same value `count` times.
    Run { value: u16, count: u64 },
    Listed(Vec<u16>),
}

impl Values {
    /// Appends a run of equal values. The values become a list only when a second, different value is appended.
    pub(crate) fn with_run(self, alloc: Global, size: u64, value: u16) -> Result<Values, AllocError>
        requires { length (values_held self) + size < 2 ^ 64 }
        ensures { IfOk result (λ more. values_held more ≡ values_held self ++ replicate size value) }
    {
        match self {
            Values::Listed(mut list) => {
                list.resize(list.len() + size as usize, value)?;
                Ok(Values::Listed(list))
            }
            Values::Run {
                value: first,
                count,
            } => {
                if count == 0 {
                    return Ok(Values::Run { value, count: size });
                }
                if first == value {
                    return Ok(Values::Run {
                        value,
                        count: count + size,
                    });
                }
                let mut list = vec![in alloc; first; count as usize]?;
                list.resize((count + size) as usize, value)?;
                Ok(Values::Listed(list))
            }
        }
    }

    /// Returns the number of values.
    pub(crate) fn len(&self) -> usize
        ensures { result ≡ length (values_held self.now) }
    {
        match self {
            Values::Run { count, .. } => *count as usize,
            Values::Listed(list) => list.len(),
        }
    }

    /// Lists the values.
    pub(crate) fn into_list(self, alloc: Global) -> Result<Vec<u16>, AllocError>
        ensures { IfOk result (λ list. list.items ≡ values_held self) }
    {
        match self {
            Values::Listed(list) => Ok(list),
            Values::Run { value, count } => Ok(vec![in alloc; value; count as usize]?),
        }
    }
}
