//! Laws of the quick forms, for the proofs of the crates above. Each function does nothing; its contract is its law.

ghost use Rattle.std.specs.Prelude.{◌≡◌, ℕ, List, Option, IfSome};
ghost use Rattle.gba_arm_table.specs.Limits.{Fits};
ghost use Rattle.gba_arm_table.specs.declared.operation.ArmOp.{ArmOp};
ghost use Rattle.gba_exec_quick.specs.Effects.{effect_of_quick};
ghost use Rattle.gba_exec_quick.specs.Making.{QuickFits, quick_of_word};
ghost use Rattle.gba_exec_registers.specs.declared.site.Site.{Site};
ghost use Rattle.gba_exec_transfers.specs.Effects.{effect_of_word};

use gba_bus::Bus;

/// A quick form has the effect of its operation, whatever the register file and the bus are.
pub fn quick_forms_have_their_effect<B: Bus>()
    ensures { (op : Option ArmOp) (site : Site) (file : List ℕ) (bus : B.State) →
        effect_of_quick B.code_price_of B.load_of B.store_of (quick_of_word op) site file bus
        ≡ effect_of_word B.code_price_of B.load_of B.store_of op site file bus }
{}

/// The quick form of an operation whose fields fit has fields that fit.
pub fn quick_forms_fit()
    ensures { (op : Option ArmOp) → IfSome op Fits → QuickFits (quick_of_word op) }
{}
