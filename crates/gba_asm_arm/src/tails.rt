//! What follows the first letters of a name.

ghost use Rattle.std.specs.Prelude.{◌≡◌};
ghost use Rattle.gba_asm_arm.specs.Tails.{condition_first, condition_of, conditioned, suffix_of, whole_condition as whole_condition_of};

use gba_arm_table::Condition;

/// What follows the condition of a name.
#[derive(Clone, Copy)]
pub(crate) enum Suffix {
    /// Nothing.
    Plain,
    /// `s`: the flags are made.
    Set,
    Byte,
    /// `t`.
    User,
    /// `bt`.
    ByteUser,
    Half,
    SignedByte,
    SignedHalf,
    IncrementAfter,
    IncrementBefore,
    DecrementAfter,
    DecrementBefore,
}

/// The condition that two letters name (ARM Architecture Reference Manual, A3.2).
#[tactic(auto, unfolding(crate::specs::Tails::condition_of))]
pub fn condition_in(name: &[u8]) -> Option<Condition>
    ensures { result ≡ condition_of name.now }
{
    if name == b"eq".as_slice() {
        Some(Condition::Equal)
    } else if name == b"ne".as_slice() {
        Some(Condition::NotEqual)
    } else if name == b"cs".as_slice() {
        Some(Condition::CarrySet)
    } else if name == b"cc".as_slice() {
        Some(Condition::CarryClear)
    } else if name == b"mi".as_slice() {
        Some(Condition::Minus)
    } else if name == b"pl".as_slice() {
        Some(Condition::Plus)
    } else if name == b"vs".as_slice() {
        Some(Condition::Overflow)
    } else if name == b"vc".as_slice() {
        Some(Condition::NoOverflow)
    } else if name == b"hi".as_slice() {
        Some(Condition::Higher)
    } else if name == b"ls".as_slice() {
        Some(Condition::LowerOrSame)
    } else if name == b"ge".as_slice() {
        Some(Condition::GreaterOrEqual)
    } else if name == b"lt".as_slice() {
        Some(Condition::Less)
    } else if name == b"gt".as_slice() {
        Some(Condition::Greater)
    } else if name == b"le".as_slice() {
        Some(Condition::LessOrEqual)
    } else if name == b"al".as_slice() {
        Some(Condition::Always)
    } else {
        None
    }
}

/// The condition that all of these letters name. No letters name `Always`.
pub(crate) fn whole_condition(letters: &[u8]) -> Option<Condition>
    ensures { result ≡ whole_condition_of letters.now }
{
    if letters.is_empty() {
        return Some(Condition::Always);
    }
    condition_in(letters)
}

/// The condition that the first two of these letters name, `Always` where they name none, and the letters after it.
#[tactic(auto, unfolding(crate::specs::Tails::condition_first))]
pub(crate) fn split_condition(letters: &[u8]) -> (Condition, &[u8])
    ensures { conditioned result.0 result.1.now ≡ condition_first letters.now }
{
    if letters.len() < 2 {
        return (Condition::Always, letters);
    }
    match condition_in(&letters[..2]) {
        Some(cond) => (cond, &letters[2..]),
        None => (Condition::Always, letters),
    }
}

/// The suffix that letters name.
#[tactic(auto, unfolding(crate::specs::Tails::suffix_of))]
pub(crate) fn suffix_in(letters: &[u8]) -> Option<Suffix>
    ensures { result ≡ suffix_of letters.now }
{
    if letters == b"".as_slice() {
        Some(Suffix::Plain)
    } else if letters == b"s".as_slice() {
        Some(Suffix::Set)
    } else if letters == b"b".as_slice() {
        Some(Suffix::Byte)
    } else if letters == b"t".as_slice() {
        Some(Suffix::User)
    } else if letters == b"bt".as_slice() {
        Some(Suffix::ByteUser)
    } else if letters == b"h".as_slice() {
        Some(Suffix::Half)
    } else if letters == b"sb".as_slice() {
        Some(Suffix::SignedByte)
    } else if letters == b"sh".as_slice() {
        Some(Suffix::SignedHalf)
    } else if letters == b"ia".as_slice() {
        Some(Suffix::IncrementAfter)
    } else if letters == b"ib".as_slice() {
        Some(Suffix::IncrementBefore)
    } else if letters == b"da".as_slice() {
        Some(Suffix::DecrementAfter)
    } else if letters == b"db".as_slice() {
        Some(Suffix::DecrementBefore)
    } else {
        None
    }
}
