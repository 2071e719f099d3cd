//! The texts of faults.
ghost use Rattle.std.specs.Prelude.{◌≡◌};
ghost use Rattle.szg_named.specs.Texts.{name_word};

use std::alloc::{AllocError, Global};
use std::io::{Error, ErrorKind};
use szg_files::FileFault;
use szg_values::NameFault;

/// Returns the reason why a file is not opened.
pub fn fault_text(alloc: Global, fault: &FileFault) -> Result<String, AllocError> {
    match fault {
        FileFault::NotRegular => String::from_str(alloc, "not a regular file"),
        FileFault::OtherTable => String::from_str(alloc, "its name is another table's"),
        FileFault::Ended => error_text(alloc, &Some(ErrorKind::UnexpectedEof.into())),
        FileFault::System(error) => error_text(alloc, &Some(*error)),
        FileFault::Memory => String::from_str(alloc, "out of memory"),
    }
}

/// Returns the system's reason, without its number.
pub fn error_text(alloc: Global, error: &Option<Error>) -> Result<String, AllocError> {
    let Some(error) = error else {
        return String::from_str(alloc, "device fault");
    };
    let text = format!(in alloc; "{error}")?;
    match text.rsplit_once(" (os error ") {
        Some((reason, _)) => String::from_str(alloc, reason),
        None => Ok(text),
    }
}

/// Returns the word for a fault of a name: the name of its variant.
pub fn name_word(fault: NameFault) -> &'static str
    ensures { result.now ≡ name_word fault }
{
    match fault {
        NameFault::Letter => "Letter",
        NameFault::King => "King",
        NameFault::Order => "Order",
        NameFault::Sides => "Sides",
        NameFault::Men => "Men",
    }
}
