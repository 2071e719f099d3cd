//! A handle on an opened front.
ghost use Rattle.std.specs.Prelude.{◌≡◌};
ghost use Rattle.std.specs.Option.{MatchOption};
ghost use Rattle.std.specs.declared.option.Option.{Option};
ghost use Rattle.std.specs.declared.option.Option.TheVariants.{None, Some};
ghost use Rattle.std.specs.Coded.{coded_option};
ghost use Rattle.std.specs.contracts.impls.GlobalAllocator.TheImpl.{ghosts};
ghost use Rattle.szg_c.specs.contracts.shared.Shared.{the_row};
ghost use Rattle.szg_file.specs.FrontTable.{FrontKept};
ghost use Rattle.szg_file.specs.contracts.opened.front_table.FrontTable.{the_row as value_row};
ghost use Rattle.szg_c.specs.Owned.{held};

use crate::handle::Handle;
use crate::loose::Loose;
use crate::shared::Shared;
use std::alloc::{AllocError, Global};
use std::marker::Model;
use std::ptr::null_mut;
use szg_file::FrontTable;

/// An opened front that C holds, or none.
#[repr(C)]
pub struct HeldFront {
    at: *mut u8,
    alloc: Global,
    pub ghost value: { Option FrontKept } by { coded_option (the_row value_row).coded },
}

impl Model for HeldFront {
    ghost also_owns = { λ h. held (ghosts.dealloc_token h.alloc) (the_row value_row) h.at h.value };
}

impl Handle for HeldFront {
    type Held = Shared<FrontTable>;

    ghost held = { λ h. h.value };

    fn none(alloc: Global) -> HeldFront
        ensures { result.value ≡ None }
    {
        HeldFront {
            at: null_mut(),
            alloc,
        }
    }

    fn of(shared: Loose<Shared<FrontTable>, Global>) -> HeldFront
        ensures { result.value ≡ Some shared.value }
    {
        let Loose { at, alloc } = shared;
        HeldFront {
            at: at as *mut u8,
            alloc,
        }
    }

    fn into_loose(self) -> Option<Loose<Shared<FrontTable>, Global>>
        ensures { MatchOption result (self.value ≡ None) (λ shared. self.value ≡ Some shared.value) }
    {
        let HeldFront { at, alloc } = self;
        if at.is_null() {
            None
        } else {
            Some(Loose {
                at: at as *mut Shared<FrontTable>,
                alloc,
            })
        }
    }

    fn again(
        shared: &Shared<FrontTable>,
        _alloc: Global,
    ) -> Result<Shared<FrontTable>, AllocError> {
        shared.again()
    }
}

// It may go from thread to thread: a front has nothing that is bound to one.
unsafe impl Send for HeldFront {}

impl Drop for HeldFront {
    fn drop(self) {
        if let Some(shared) = self.into_loose() {
            drop(shared.into_box());
        }
    }
}
