//! A word with all that decoding it gives.

ghost use Rattle.std.specs.Prelude.{◌≡◌, IsTrue};
ghost use Rattle.gba_terms.specs.Bits.{field};
ghost use Rattle.gba_arm_table.specs.Numbers.{condition_of};
ghost use Rattle.gba_arm_table.specs.Table.{operation};
ghost use Rattle.gba_arm_table.specs.declared.operation.Condition.TheVariants.{Always};
ghost use Rattle.gba_exec_quick.specs.Making.{quick_of_word};

use gba_arm_table::{ArmOp, Condition, condition_of};
use gba_exec_quick::Quick;

/// A word with its condition and the quick form of its operation.
#[derive(Clone, Copy)]
pub struct Decoded {
    /// The word that was decoded.
    pub word: u32,
    pub(crate) condition: Condition,
    /// The condition is Always. It may be false also where it is, and is then tested.
    pub(crate) always: bool,
    pub(crate) quick: Quick,
    ghost when: { condition ≡ condition_of (field word 28 4) },
    ghost ever: { IsTrue always → condition ≡ Always },
    ghost right: { quick ≡ quick_of_word (operation word) },
}
