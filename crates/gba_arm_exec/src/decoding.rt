//! Decoding a word once.

ghost use Rattle.std.specs.Prelude.{◌≡◌, IsTrue};
ghost use Rattle.gba_arm_table.specs.Table.{operation};
ghost use Rattle.gba_arm_table.specs.declared.operation.Condition.TheVariants.{Always};

use crate::Decoded;
use gba_arm_table::{ArmOp, Condition, condition_of, decode};
use gba_exec_quick::quick_of_word;

/// A word, decoded.
pub fn decode_word(word: u32) -> Decoded
    ensures { result.word ≡ word }
{
    make_decoded(word, decode(word))
}

/// A word with its operation.
pub fn make_decoded(word: u32, op: Option<ArmOp>) -> Decoded
    requires { op ≡ operation word }
    ensures { result.word ≡ word }
{
    let condition = condition_of(word);
    Decoded {
        word,
        condition,
        always: is_always(condition),
        quick: quick_of_word(op),
    }
}

fn is_always(condition: Condition) -> bool
    ensures { IsTrue result → condition ≡ Always }
{
    match condition {
        Condition::Always => true,
        _ => false,
    }
}
