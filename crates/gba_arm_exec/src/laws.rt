//! Laws of execution, for the proofs of the crates above. Each function does nothing; its contract is its law.

ghost use Rattle.std.specs.Prelude.{◌≡◌, ℕ, Bool, List, true};
ghost use Rattle.gba_arm_exec.specs.Execution.{execution};
ghost use Rattle.gba_exec_transfers.specs.Done.{IsStepLength};
ghost use Rattle.gba_exec_transfers.specs.Keeping.{LoadsKeep, Passing, StoresKeep};

use gba_bus::Bus;
use gba_exec_transfers::laws::{cycles_of_an_operation, operations_keep};

/// Every word takes from 1 to 512 cycles, whatever the register file and the bus are.
pub fn cycles_of_a_word<B: Bus>()
    ensures { (word : ℕ) (file : List ℕ) (bus : B.State) →
        IsStepLength (execution B.code_price_of B.load_of B.store_of word file bus).cycles }
{
    cycles_of_an_operation::<B>();
}

/// What every read and every write of data keeps of a bus, every word keeps.
pub fn words_keep<B: Bus>()
    ensures { (test : B.State → Bool) → LoadsKeep B.load_of (Passing test) → StoresKeep B.store_of (Passing test) →
        (word : ℕ) (file : List ℕ) (bus : B.State) → test bus ≡ true →
        test (execution B.code_price_of B.load_of B.store_of word file bus).bus ≡ true }
{
    operations_keep::<B>();
}
