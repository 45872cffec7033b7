//! The names of Thumb statements.

ghost use Rattle.std.specs.Prelude.{◌≡◌};
ghost use Rattle.gba_asm_thumb.specs.Names.{access_of, branch_of, branch_under as branch_under_of, other_of, thumb_name as thumb_name_of, two_register_of};

use gba_arm_table::Condition;
use gba_asm_arm::condition_in;
use gba_word::Shift;

/// What a load or a store moves.
#[derive(Clone, Copy)]
pub(crate) enum Access {
    Word,
    Byte,
    Half,
    SignedByte,
    SignedHalf,
}

/// The name of a statement.
#[derive(Clone, Copy)]
pub(crate) enum ThumbName {
    Shifted(Shift),
    Move,
    Compare,
    Add,
    Subtract,
    /// An operation of format 4, by its number.
    TwoRegisters(u16),
    Exchange,
    Transfer { load: bool, access: Access },
    Push,
    Pop,
    Block { load: bool },
    Branch,
    /// The branch under the condition of this number, 0 to 13.
    BranchIf(u16),
    Call,
    Interrupt,
}

/// The operations of format 4 that no other format shares a name with, by their numbers (GBATEK, THUMB.4).
#[tactic(auto, unfolding(crate::specs::Names::two_register_of))]
fn two_register_in(word: &[u8]) -> Option<u16>
    ensures { result ≡ two_register_of word.now }
{
    if word == b"and".as_slice() {
        Some(0)
    } else if word == b"eor".as_slice() {
        Some(1)
    } else if word == b"adc".as_slice() {
        Some(5)
    } else if word == b"sbc".as_slice() {
        Some(6)
    } else if word == b"ror".as_slice() {
        Some(7)
    } else if word == b"tst".as_slice() {
        Some(8)
    } else if word == b"neg".as_slice() {
        Some(9)
    } else if word == b"cmn".as_slice() {
        Some(11)
    } else if word == b"orr".as_slice() {
        Some(12)
    } else if word == b"mul".as_slice() {
        Some(13)
    } else if word == b"bic".as_slice() {
        Some(14)
    } else if word == b"mvn".as_slice() {
        Some(15)
    } else {
        None
    }
}

/// The loads and stores.
#[tactic(auto, unfolding(crate::specs::Names::access_of))]
fn access_in(word: &[u8]) -> Option<ThumbName>
    ensures { result ≡ access_of word.now }
{
    if word == b"ldr".as_slice() {
        Some(ThumbName::Transfer {
            load: true,
            access: Access::Word,
        })
    } else if word == b"ldrb".as_slice() {
        Some(ThumbName::Transfer {
            load: true,
            access: Access::Byte,
        })
    } else if word == b"ldrh".as_slice() {
        Some(ThumbName::Transfer {
            load: true,
            access: Access::Half,
        })
    } else if word == b"ldrsb".as_slice() {
        Some(ThumbName::Transfer {
            load: true,
            access: Access::SignedByte,
        })
    } else if word == b"ldrsh".as_slice() {
        Some(ThumbName::Transfer {
            load: true,
            access: Access::SignedHalf,
        })
    } else if word == b"str".as_slice() {
        Some(ThumbName::Transfer {
            load: false,
            access: Access::Word,
        })
    } else if word == b"strb".as_slice() {
        Some(ThumbName::Transfer {
            load: false,
            access: Access::Byte,
        })
    } else if word == b"strh".as_slice() {
        Some(ThumbName::Transfer {
            load: false,
            access: Access::Half,
        })
    } else {
        None
    }
}

/// The other names.
#[tactic(auto, unfolding(crate::specs::Names::other_of))]
fn other_in(word: &[u8]) -> Option<ThumbName>
    ensures { result ≡ other_of word.now }
{
    if word == b"lsl".as_slice() {
        Some(ThumbName::Shifted(Shift::Lsl))
    } else if word == b"lsr".as_slice() {
        Some(ThumbName::Shifted(Shift::Lsr))
    } else if word == b"asr".as_slice() {
        Some(ThumbName::Shifted(Shift::Asr))
    } else if word == b"mov".as_slice() {
        Some(ThumbName::Move)
    } else if word == b"cmp".as_slice() {
        Some(ThumbName::Compare)
    } else if word == b"add".as_slice() {
        Some(ThumbName::Add)
    } else if word == b"sub".as_slice() {
        Some(ThumbName::Subtract)
    } else if word == b"bx".as_slice() {
        Some(ThumbName::Exchange)
    } else if word == b"push".as_slice() {
        Some(ThumbName::Push)
    } else if word == b"pop".as_slice() {
        Some(ThumbName::Pop)
    } else if word == b"ldmia".as_slice() {
        Some(ThumbName::Block { load: true })
    } else if word == b"stmia".as_slice() {
        Some(ThumbName::Block { load: false })
    } else if word == b"bl".as_slice() {
        Some(ThumbName::Call)
    } else if word == b"b".as_slice() {
        Some(ThumbName::Branch)
    } else if word == b"swi".as_slice() {
        Some(ThumbName::Interrupt)
    } else {
        None
    }
}

/// The branch under a condition, which has only the first fourteen.
fn branch_under(cond: Condition) -> Option<ThumbName>
    ensures { result ≡ branch_under_of cond }
{
    let number = cond as u16;
    if number < 14 {
        Some(ThumbName::BranchIf(number))
    } else {
        None
    }
}

/// `b` and a condition.
fn branch_in(word: &[u8]) -> Option<ThumbName>
    ensures { result ≡ branch_of word.now }
{
    let Some((first, letters)) = word.split_first() else {
        return None;
    };
    if *first != b'b' {
        return None;
    }
    match condition_in(letters) {
        Some(cond) => branch_under(cond),
        None => None,
    }
}

/// The statement that a word names.
#[tactic(auto, unfolding(crate::specs::Names::thumb_name))]
pub(crate) fn thumb_name(word: &[u8]) -> Option<ThumbName>
    ensures { result ≡ thumb_name_of word.now }
{
    if let Some(name) = other_in(word) {
        return Some(name);
    }
    if let Some(name) = access_in(word) {
        return Some(name);
    }
    match two_register_in(word) {
        Some(number) => Some(ThumbName::TwoRegisters(number)),
        None => branch_in(word),
    }
}
