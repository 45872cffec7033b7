//! Halfwords that were decoded, those of the BIOS and the ROM with their addresses.

ghost use Rattle.std.specs.Prelude.{◌≡◌, ◌<◌, ◌^◌, All, IsTrue, length, true, ℕ, List};
ghost use Rattle.gba_bus.specs.Regions.{region_of};
ghost use Rattle.gba_bus.specs.declared.width.Width.TheVariants.{Half};
ghost use Rattle.gba_io.specs.Bus.{core_read};
ghost use Rattle.gba_console.specs.Fixed.{Stands, is_fixed};
ghost use Rattle.gba_console.specs.Step.{half_done, instruction};
ghost use Rattle.gba_exec_transfers.specs.Done.{Leaves};

use gba_bus::{Bus, Region, Width, region_of};
use gba_io::Core;
use gba_psr::Registers;
use gba_thumb_exec as thumb;
use gba_thumb_exec::{DecodedHalf, decode_half};

/// No address: all are below it.
const NOWHERE: u64 = 0x1_0000_0000;

/// A halfword, decoded. `fixed` is the address at which it stands where that is in the BIOS or the ROM, which nothing
/// changes, and else no address. Its 64 bytes let a place of a table be found by a shift.
#[derive(Clone, Copy)]
pub(crate) struct KeptHalf {
    pub(crate) fixed: u64,
    pub(crate) decoded: DecodedHalf,
    spare: [u64; 3],
}

/// The halfword 0, decoded, which stands at no address.
pub(crate) fn first_kept() -> KeptHalf
    ensures { (bios rom : List ℕ) → Stands bios rom result }
{
    KeptHalf {
        fixed: NOWHERE,
        decoded: decode_half(0),
        spare: [0; 3],
    }
}

/// Whether what stands at an address never changes.
fn is_fixed(address: u32) -> bool
    ensures { result ≡ is_fixed (region_of address) }
{
    match region_of(address) {
        Region::Bios | Region::Rom0 | Region::Rom1 | Region::Rom2 => true,
        _ => false,
    }
}

/// The halfword at an address, as an instruction.
#[inline(always)]
pub(crate) fn half_at(core: &mut Core, address: u32) -> u16
    ensures value { result ≡ core_read core.old address address Half }
    ensures same { core.new ≡ core.old }
{
    core.code(address, Width::Half) as u16
}

/// An address at which nothing changes, or no address.
fn place_of(address: u32) -> u64
    ensures { result < 2 ^ 32 → (result ≡ address) × (is_fixed (region_of address) ≡ true) }
{
    if is_fixed(address) {
        u64::from(address)
    } else {
        NOWHERE
    }
}

/// Executes a halfword that was read at r15 and is kept nowhere, and keeps it.
pub(crate) fn execute_first(
    registers: &mut Registers,
    core: &mut Core,
    kept: &mut KeptHalf,
    half: u16,
) -> u32
    requires { half ≡ instruction Half registers.old core.old }
    ensures left { Leaves (half_done registers.old core.old) registers.new core.new result }
    ensures stands { Stands core.old.memory.bios core.old.memory.rom kept.new }
    ensures half { kept.new.decoded.half ≡ half }
{
    kept.fixed = place_of(registers.get(15));
    thumb::execute_first(registers, core, &mut kept.decoded, half)
}

/// Whether an entry is the halfword at an address. What stands in the BIOS or the ROM isn't read again.
#[inline(always)]
pub(crate) fn is_half_at(core: &mut Core, address: u32, one: &KeptHalf) -> bool
    requires { Stands core.old.memory.bios core.old.memory.rom one.now }
    ensures there { IsTrue result → one.now.decoded.half ≡ core_read core.old address address Half }
    ensures same { core.new ≡ core.old }
{
    if one.fixed == u64::from(address) {
        return true;
    }
    one.decoded.half == half_at(core, address)
}
