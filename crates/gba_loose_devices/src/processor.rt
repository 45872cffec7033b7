//! The registers of the processor.

ghost use Rattle.std.specs.Prelude.{◌≡◌, slice_index};
ghost use Rattle.gba_psr.specs.Status.{IsStatus};
ghost use Rattle.gba_loose_devices.specs.Whole.{registers_poured};

use crate::values::register;
use gba_numbers::Numbers;
use gba_psr::Registers;

/// The numbers of the registers.
fn values(numbers: &Numbers) -> [u32; 37]
    ensures { result ≡ registers_poured numbers.now }
{
    let mut values = [0; 37];
    for place in 0..37 {
        values[place] = register(numbers, place as u32);
    }
    values
}

/// The registers of the processor. CPSR has to have no bits but the stored ones, and one of the seven modes.
pub fn registers(numbers: &Numbers) -> Registers
    requires { IsStatus (slice_index (registers_poured numbers.now) 31) }
    ensures { result ≡ registers_poured numbers.now }
{
    Registers::of(&values(numbers))
}
