//! Laws of execution, for the proofs of the crates above. Each function does nothing; its contract is its law.

ghost use Rattle.std.specs.Prelude.{◌≡◌, ℕ, Bool, List, Option, true};
ghost use Rattle.gba_exec_transfers.specs.Done.{IsStepLength};
ghost use Rattle.gba_exec_transfers.specs.Keeping.{LoadsKeep, Passing, StoresKeep};
ghost use Rattle.gba_exec_registers.specs.declared.site.Site.{Site};
ghost use Rattle.gba_thumb_exec.specs.Effects.{effect_of_half};
ghost use Rattle.gba_thumb_exec.specs.Execution.{execution};
ghost use Rattle.gba_thumb_exec.specs.Forms.{FormFits, effect_of_form, form_of_half};
ghost use Rattle.gba_thumb_table.specs.Table.{operation};
ghost use Rattle.gba_thumb_table.specs.declared.operation.ThumbOp.{ThumbOp};

use gba_bus::Bus;
use gba_exec_quick::laws::{quick_forms_fit, quick_forms_have_their_effect};
use gba_exec_transfers::laws::{cycles_of_an_operation, operations_keep};
use gba_thumb_table::laws::operations_fit;

/// Every halfword takes from 1 to 512 cycles, whatever the register file and the bus are.
pub fn cycles_of_a_halfword<B: Bus>()
    ensures { (half : ℕ) (file : List ℕ) (bus : B.State) →
        IsStepLength (execution B.code_price_of B.load_of B.store_of half file bus).cycles }
{
    cycles_of_an_operation::<B>();
}

/// What every read and every write of data keeps of a bus, every halfword keeps.
pub fn halfwords_keep<B: Bus>()
    ensures { (test : B.State → Bool) → LoadsKeep B.load_of (Passing test) → StoresKeep B.store_of (Passing test) →
        (half : ℕ) (file : List ℕ) (bus : B.State) → test bus ≡ true →
        test (execution B.code_price_of B.load_of B.store_of half file bus).bus ≡ true }
{
    operations_keep::<B>();
}

/// A halfword's form has the effect of its operation, whatever the register file and the bus are.
pub fn forms_have_their_effect<B: Bus>()
    ensures { (op : Option ThumbOp) (site : Site) (file : List ℕ) (bus : B.State) →
        effect_of_form B.code_price_of B.load_of B.store_of (form_of_half op) site file bus
        ≡ effect_of_half B.code_price_of B.load_of B.store_of op site file bus }
{
    quick_forms_have_their_effect::<B>();
}

/// The form of a halfword's operation has fields that fit.
pub fn forms_fit()
    ensures { (half : ℕ) → FormFits (form_of_half (operation half)) }
{
    operations_fit();
    quick_forms_fit();
}
