//! Laws of operations, for the proofs of the crates above. Each function does nothing; its contract is its law.

ghost use Rattle.std.specs.Prelude.{◌≡◌, ℕ, Bool, List, Option, ◌<◌, ◌^◌, false, length};
ghost use Rattle.gba_arm_table.specs.declared.operation.ArmOp.{ArmOp};
ghost use Rattle.gba_psr.specs.RegisterFile.{IsRegisterFile};
ghost use Rattle.gba_exec_registers.specs.declared.site.Site.{Site};
ghost use Rattle.gba_exec_transfers.specs.Accesses.{HoldsWords, Rises, after_loads, after_stores};
ghost use Rattle.gba_exec_transfers.specs.Blocks.{loads, registers_in, stores};
ghost use Rattle.gba_exec_transfers.specs.Done.{Done, IsStepLength};
ghost use Rattle.gba_exec_transfers.specs.Effects.{effect_of_word};
ghost use Rattle.gba_exec_transfers.specs.Keeping.{LoadsKeep, OperationsKeep, Passing, StoresKeep};
ghost use Rattle.gba_exec_transfers.specs.Singles.{unit_load};
ghost use Rattle.gba_exec_transfers.specs.declared.units.LoadUnit.TheVariants.{Byte};

use gba_bus::Bus;
use gba_psr::laws::set_then_get;

/// Every operation takes from 1 to 512 cycles, and so does the Undefined trap, whatever the register file and the bus
/// are.
pub fn cycles_of_an_operation<B: Bus>()
    ensures { (op : Option ArmOp) (site : Site) (file : List ℕ) (bus : B.State) →
        IsStepLength (effect_of_word B.code_price_of B.load_of B.store_of op site file bus).cycles }
{}

/// What LDRB and SWPB give a register has zeros in bits 31 to 8, whatever the bus is.
pub fn bytes_are_extended_by_zeros<B: Bus>()
    ensures { (site : Site) (address : ℕ) (bus : B.State) →
        (unit_load B.code_price_of B.load_of B.store_of Byte site address bus).value < 2 ^ 8 }
{}

/// The numbers in a block's list rise, and register k of them is at the lowest address plus 4k. The first access is
/// non-sequential, the others are sequential; the cycles of data are the sum of their prices.
pub fn loads_in_order<B: Bus>()
    ensures rising { (list : ℕ) → Rises (registers_in list 0 16) }
    ensures accesses { (user : Bool) (site : Site) (numbers : List ℕ) (lowest : ℕ) (done : Done B.State) →
        lowest < 2 ^ 32 →
        loads B.code_price_of B.load_of B.store_of user site numbers lowest false done
        ≡ after_loads B.load_of B.store_of user site numbers lowest done (length numbers) }
    ensures words { (site : Site) (list lowest : ℕ) (done : Done B.State) → IsRegisterFile done.registers →
        HoldsWords B.load_of B.store_of site (registers_in list 0 16) lowest done }
{
    set_then_get();
}

/// Register k of a block's list is stored at the lowest address plus 4k. The first access is non-sequential, the others
/// are sequential; the cycles of data are the sum of their prices. No register but the base changes.
pub fn stores_in_order<B: Bus>()
    ensures { (user : Bool) (site : Site) (write : Bool) (rn base : ℕ) (numbers : List ℕ) (lowest : ℕ)
        (done : Done B.State) → lowest < 2 ^ 32 →
        stores B.code_price_of B.load_of B.store_of user site write rn base numbers lowest false done
        ≡ after_stores B.load_of B.store_of user site write rn base numbers lowest done (length numbers) }
{}

/// What every read and every write of data keeps of a bus, every operation keeps, and so does the Undefined trap.
pub fn operations_keep<B: Bus>()
    ensures { (test : B.State → Bool) → LoadsKeep B.load_of (Passing test) → StoresKeep B.store_of (Passing test) →
        OperationsKeep B.code_price_of B.load_of B.store_of (Passing test) }
{}
