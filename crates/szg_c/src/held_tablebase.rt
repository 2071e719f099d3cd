//! A handle on a tablebase.
ghost use Rattle.std.specs.Prelude.{◌≡◌, List};
ghost use Rattle.std.specs.Option.{MatchOption};
ghost use Rattle.std.specs.declared.option.Option.{Option};
ghost use Rattle.std.specs.declared.option.Option.TheVariants.{None, Some};
ghost use Rattle.std.specs.Coded.{coded_option};
ghost use Rattle.std.specs.contracts.impls.GlobalAllocator.TheImpl.{ghosts};
ghost use Rattle.szg_mapped.specs.InPlace.{InPlace};
ghost use Rattle.szg_tables.specs.contracts.opened.OpenedSet.{the_row};
ghost use Rattle.szg_tables.specs.contracts.mapped.MappedTable.{the_row as table_row};
ghost use Rattle.szg_tables.specs.contracts.mapped.MappedTableOpenTable.TheImpl.{ghosts as table_ghosts};
ghost use denote.Signature.{static_lft};
ghost use Rattle.szg_c.specs.Owned.{held};

use crate::handle::Handle;
use crate::loose::Loose;
use std::alloc::{AllocError, Global};
use std::marker::Model;
use std::ptr::null_mut;
use szg_tables::MappedSet;

/// A tablebase that C holds, or none.
#[repr(C)]
pub struct HeldTablebase {
    at: *mut u8,
    alloc: Global,
    pub ghost value: { Option (List InPlace) } by { coded_option (the_row (table_row static_lft) table_ghosts).coded },
}

impl Model for HeldTablebase {
    ghost also_owns = { λ h. held (ghosts.dealloc_token h.alloc) (the_row (table_row static_lft) table_ghosts) h.at h.value };
}

impl Handle for HeldTablebase {
    type Held = MappedSet<'static>;

    ghost held = { λ h. h.value };

    fn none(alloc: Global) -> HeldTablebase
        ensures { result.value ≡ None }
    {
        HeldTablebase {
            at: null_mut(),
            alloc,
        }
    }

    fn of(tables: Loose<MappedSet<'static>, Global>) -> HeldTablebase
        ensures { result.value ≡ Some tables.entry.value }
    {
        let Loose { at, alloc } = tables;
        HeldTablebase {
            at: at as *mut u8,
            alloc,
        }
    }

    fn into_loose(self) -> Option<Loose<MappedSet<'static>, Global>>
        ensures { MatchOption result (self.value ≡ None) (λ tables. self.value ≡ Some tables.value) }
    {
        let HeldTablebase { at, alloc } = self;
        if at.is_null() {
            None
        } else {
            Some(Loose {
                at: at as *mut MappedSet<'static>,
                alloc,
            })
        }
    }

    fn again(tables: &MappedSet<'static>, alloc: Global) -> Result<MappedSet<'static>, AllocError> {
        tables.again(alloc)
    }
}

// It may go from thread to thread: a tablebase has nothing that is bound to one.
unsafe impl Send for HeldTablebase {}

impl Drop for HeldTablebase {
    fn drop(self) {
        if let Some(tables) = self.into_loose() {
            drop(tables.into_box());
        }
    }
}
