//! The handle of a table.
ghost use Rattle.std.specs.Prelude.{◌≡◌};
ghost use Rattle.std.specs.Option.{MatchOption};
ghost use Rattle.std.specs.declared.option.Option.{Option};
ghost use Rattle.std.specs.declared.option.Option.TheVariants.{None, Some};
ghost use Rattle.std.specs.Coded.{coded_option};
ghost use Rattle.std.specs.contracts.impls.GlobalAllocator.TheImpl.{ghosts};
ghost use Rattle.szg_c.specs.contracts.shared.Shared.{the_row};
ghost use Rattle.szg_file.specs.Held.{Shown};
ghost use Rattle.szg_file.specs.contracts.table.Table.{the_row as value_row};
ghost use Rattle.szg_c.specs.Owned.{held};

use crate::handle::Handle;
use crate::loose::Loose;
use crate::shared::Shared;
use std::alloc::{AllocError, Global};
use std::marker::Model;
use std::ptr::null_mut;
use szg_file::Table;

/// A handle on a table, or on none.
#[repr(C)]
pub struct HeldTable {
    at: *mut u8,
    alloc: Global,
    pub ghost value: { Option Shown } by { coded_option (the_row value_row).coded },
}

impl Model for HeldTable {
    ghost also_owns = { λ h. held (ghosts.dealloc_token h.alloc) (the_row value_row) h.at h.value };
}

impl Handle for HeldTable {
    type Held = Shared<Table>;

    ghost held = { λ h. h.value };

    fn none(alloc: Global) -> HeldTable
        ensures { result.value ≡ None }
    {
        HeldTable {
            at: null_mut(),
            alloc,
        }
    }

    fn of(shared: Loose<Shared<Table>, Global>) -> HeldTable
        ensures { result.value ≡ Some shared.value }
    {
        let Loose { at, alloc } = shared;
        HeldTable {
            at: at as *mut u8,
            alloc,
        }
    }

    fn into_loose(self) -> Option<Loose<Shared<Table>, Global>>
        ensures { MatchOption result (self.value ≡ None) (λ shared. self.value ≡ Some shared.value) }
    {
        let HeldTable { at, alloc } = self;
        if at.is_null() {
            None
        } else {
            Some(Loose {
                at: at as *mut Shared<Table>,
                alloc,
            })
        }
    }

    fn again(shared: &Shared<Table>, _alloc: Global) -> Result<Shared<Table>, AllocError> {
        shared.again()
    }
}

// It may be sent to another thread: nothing in a table belongs to one thread.
unsafe impl Send for HeldTable {}

impl Drop for HeldTable {
    fn drop(self) {
        if let Some(shared) = self.into_loose() {
            drop(shared.into_box());
        }
    }
}
