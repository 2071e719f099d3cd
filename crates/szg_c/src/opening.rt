//! Opening a table by its name and bytes.
ghost use Rattle.std.specs.Prelude.{◌≡◌, ◌≢◌, Ok, MatchOption, IfOk, IfErr};
ghost use Rattle.szg_values.specs.Material.{parsed};
ghost use Rattle.szg_file.specs.File.{file};
ghost use Rattle.szg_file.specs.declared.fault.ReadFault.TheVariants.{Device};
ghost use Rattle.szg_c.specs.Reported.{kind_of_flag, IsFaultStatus, IsNoName, IsTable, Stops};

use std::alloc::Global;
use szg_c_positions::status::{MEMORY, NAME, REFUSED};
use szg_file::{ReadFault, Table, read_bytes};
use szg_values::{Kind, Material};

/// What a call returns with its status.
#[repr(C)]
#[derive(Drop)]
pub struct RawAnswer {
    /// The number of bytes of the table's file if a check accepts it; the offset of the refusal if it is refused.
    pub place: u64,
    /// The number of the reason if the file is refused.
    pub reason: u32,
}

/// Returns the kind for a flag.
pub(crate) fn kind_of(dtz: bool) -> Kind
    ensures { result ≡ kind_of_flag dtz }
{
    if dtz { Kind::Dtz } else { Kind::Wdl }
}

/// Returns the material of a name. None if the bytes are not such a name.
pub(crate) fn material_of(name: &[u8]) -> Option<Material>
    ensures { MatchOption result (IsNoName name.now) (λ material. parsed name.now ≡ Ok material) }
{
    let Ok(text) = str::from_utf8(name) else {
        return None;
    };
    Material::parse(text).ok()
}

/// Returns the status of a fault of bytes in memory, which never fail. Writes the offset and the reason of a refusal.
pub(crate) fn fault_status(fault: ReadFault, answer: &mut RawAnswer) -> u32
    requires { fault ≢ Device }
    ensures { IsFaultStatus fault answer.old answer.new result }
{
    match fault {
        ReadFault::Refused { place, reason } => {
            answer.place = place;
            answer.reason = reason as u32;
            REFUSED
        }
        ReadFault::Memory => MEMORY,
        ReadFault::Device => unreachable!(),
    }
}

/// Opens the table of this name and kind that the bytes begin with. Errors: the status that says why there is none.
pub(crate) fn open(
    alloc: Global,
    name: &[u8],
    dtz: bool,
    bytes: &[u8],
    answer: &mut RawAnswer,
) -> Result<Table, u32>
    ensures table { IfOk result (λ t. IsTable name.now dtz bytes.now t) }
    ensures stops { IfErr result (λ status. Stops file name.now dtz bytes.now status answer.new.place answer.new.reason) }
    ensures kept { IfOk result (λ t. answer.new ≡ answer.old) }
    ensures stays { IfErr result (λ status. (status ≡ 2 → ⊥) → answer.new ≡ answer.old) }
{
    let Some(material) = material_of(name) else {
        return Err(NAME);
    };
    match read_bytes(alloc, material, kind_of(dtz), bytes) {
        Ok(table) => Ok(table),
        Err(fault) => Err(fault_status(fault, answer)),
    }
}
