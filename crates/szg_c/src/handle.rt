//! What C holds by a pointer, or nothing.
ghost use Rattle.std.specs.Prelude.{◌≡◌, ◌⊎◌, IfOk, IfSome, MatchOption, MatchResult};
ghost use Rattle.std.specs.Fn.{CalledAt};
ghost use Rattle.std.specs.declared.option.Option.{Option};
ghost use Rattle.std.specs.declared.option.Option.TheVariants.{None, Some};

use crate::loose::Loose;
use crate::shared::Shared;
use std::alloc::{AllocError, Global};
use std::mem::replace;
use szg_c_positions::status::{CLOSED, DONE, MEMORY};

/// A C struct with a pointer to what it owns, or with a null pointer.
pub trait Handle: Drop {
    /// What it owns.
    type Held: Drop;

    /// what it owns, if its pointer is not null
    ghost held: { Self → Option Self.Held };

    /// Creates a handle that owns nothing.
    fn none(alloc: Global) -> Self
        ensures { held result ≡ None };

    /// Creates a handle.
    fn of(owned: Loose<Self::Held, Global>) -> Self
        ensures { held result ≡ Some owned.value };

    /// Returns what it owns. None if that is nothing.
    fn into_loose(self) -> Option<Loose<Self::Held, Global>>
        ensures { MatchOption result (held self ≡ None) (λ owned. held self ≡ Some owned.value) };

    /// Returns the same for another handle. Errors: memory was refused.
    fn again(owned: &Self::Held, alloc: Global) -> Result<Self::Held, AllocError>
        ensures { IfOk result (λ again. again ≡ owned.now) };
}

/// Takes what a handle owns. None if that is nothing.
pub fn take<H: Handle>(handle: &mut H, alloc: Global) -> Option<Box<H::Held>>
    ensures taken { MatchOption result (H.held handle.old ≡ None) (λ owned. H.held handle.old ≡ Some owned.value) }
    ensures empty { H.held handle.new ≡ None }
{
    let held = replace(handle, H::none(alloc));
    match held.into_loose() {
        None => None,
        Some(owned) => Some(owned.into_box()),
    }
}

/// Stores this in a handle, and drops what the handle had.
pub fn put<H: Handle>(handle: &mut H, owned: Box<H::Held>)
    ensures { H.held handle.new ≡ Some owned.value }
{
    *handle = H::of(Loose::of(owned));
}

/// Calls a function with what a handle owns a share of; returns its status. `CLOSED` if that is nothing: then the function is
/// not called.
#[inline(always)]
pub(crate) fn with_held<T: Drop, H: Handle<Held = Shared<T>>, F: FnMut(&T) -> u32>(
    alloc: Global,
    handle: &mut H,
    function: &mut F,
) -> u32
    requires { F.IsAlwaysCallable function.old }
    ensures kept { H.held handle.new ≡ H.held handle.old }
    ensures status { MatchOption (H.held handle.old) ((result ≡ CLOSED) × (function.new ≡ function.old)) (λ owned. CalledAt F.FnMut function.old owned result function.new) }
{
    let Some(held) = take(handle, alloc) else {
        return CLOSED;
    };
    let status = function(held.value());
    put(handle, held);
    status
}

/// Writes what was found; returns the status.
pub(crate) fn write<T: Drop>(found: Result<T, u32>, to: &mut T) -> u32
    ensures { MatchResult found (λ x. (result ≡ DONE) × (to.new ≡ x)) (λ status. (result ≡ status) × (to.new ≡ to.old)) }
{
    match found {
        Ok(x) => {
            *to = x;
            DONE
        }
        Err(status) => status,
    }
}

/// Drops what a handle owns.
pub fn shut<H: Handle>(handle: &mut H, alloc: Global)
    ensures { H.held handle.new ≡ None }
{
    *handle = H::none(alloc);
}

/// Stores this in a handle, if there is memory for it.
pub fn hold<H: Handle>(alloc: Global, handle: &mut H, owned: H::Held) -> u32
    ensures done { (result ≡ 0) → H.held handle.new ≡ Some owned }
    ensures kept { (result ≡ 0 → ⊥) → H.held handle.new ≡ H.held handle.old }
    ensures statuses { (result ≡ 0) ⊎ (result ≡ 3) }
{
    let Ok(owned) = Box::new(alloc, owned) else {
        return MEMORY;
    };
    put(handle, owned);
    DONE
}

/// Stores what a handle owns in another handle too, and drops what the other had.
pub fn share<H: Handle>(alloc: Global, handle: &mut H, second: &mut H) -> u32
    ensures kept { H.held handle.new ≡ H.held handle.old }
    ensures closed { H.held handle.old ≡ None → result ≡ 5 }
    ensures statuses { IfSome (H.held handle.old) (λ owned. (result ≡ 0) ⊎ (result ≡ 3)) }
    ensures done { (result ≡ 0) → H.held second.new ≡ H.held handle.old }
    ensures shut { (result ≡ 0 → ⊥) → H.held second.new ≡ None }
{
    shut(second, alloc);
    let Some(held) = take(handle, alloc) else {
        return CLOSED;
    };
    let again = H::again(&held, alloc);
    put(handle, held);
    match again {
        Ok(owned) => hold(alloc, second, owned),
        Err(_) => MEMORY,
    }
}
