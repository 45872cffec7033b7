//! The names of ARM statements.

ghost use Rattle.std.specs.Prelude.{◌≡◌, Some};
ghost use Rattle.gba_asm_words.specs.Names.{first_some};
ghost use Rattle.gba_asm_arm.specs.Names.{arm_name as arm_name_of, block_of as block_name_of, branch_name as branch_name_of, compare_of, compute_of, conditional as conditional_of, load_of, long_base as long_base_of, long_name as long_name_of, longer_branch as longer_branch_of, mnemonic_of as mnemonic_with, other_of, plain as plain_of, set_of as set_with, store_of, swap_of, three_base as three_base_of, three_name as three_name_of, with_tail as with_tail_of};

use crate::tails::{Suffix, split_condition, suffix_in, whole_condition};
use gba_arm_table::{CompareOp, ComputeOp, Condition, HalfKind};

/// The first letters of a name, before its condition.
#[derive(Clone, Copy)]
pub(crate) enum Base {
    Compute(ComputeOp),
    Compare(CompareOp),
    Multiply { accumulate: bool },
    MultiplyLong { signed: bool, accumulate: bool },
    Load,
    Store,
    Block { load: bool },
    Swap,
    ReadStatus,
    WriteStatus,
    Interrupt,
}

/// A name without its condition.
#[derive(Clone, Copy)]
pub(crate) enum Mnemonic {
    Compute {
        op: ComputeOp,
        set: bool,
    },
    Compare {
        op: CompareOp,
    },
    Multiply {
        accumulate: bool,
        set: bool,
    },
    MultiplyLong {
        signed: bool,
        accumulate: bool,
        set: bool,
    },
    /// LDR and STR of a word or a byte; with `user` the forms with T.
    Transfer {
        load: bool,
        byte: bool,
        user: bool,
    },
    Half {
        kind: HalfKind,
    },
    Block {
        load: bool,
        pre: bool,
        up: bool,
    },
    Swap {
        byte: bool,
    },
    ReadStatus,
    WriteStatus,
    Interrupt,
    Branch {
        link: bool,
    },
    Exchange,
}

/// The name of a statement.
#[derive(Clone, Copy)]
pub(crate) struct ArmName {
    pub(crate) cond: Condition,
    pub(crate) mnemonic: Mnemonic,
}

#[tactic(auto, unfolding(crate::specs::Names::compute_of))]
fn compute_in(name: &[u8]) -> Option<ComputeOp>
    ensures { result ≡ compute_of name.now }
{
    if name == b"and".as_slice() {
        Some(ComputeOp::And)
    } else if name == b"eor".as_slice() {
        Some(ComputeOp::Eor)
    } else if name == b"sub".as_slice() {
        Some(ComputeOp::Sub)
    } else if name == b"rsb".as_slice() {
        Some(ComputeOp::Rsb)
    } else if name == b"add".as_slice() {
        Some(ComputeOp::Add)
    } else if name == b"adc".as_slice() {
        Some(ComputeOp::Adc)
    } else if name == b"sbc".as_slice() {
        Some(ComputeOp::Sbc)
    } else if name == b"rsc".as_slice() {
        Some(ComputeOp::Rsc)
    } else if name == b"orr".as_slice() {
        Some(ComputeOp::Orr)
    } else if name == b"mov".as_slice() {
        Some(ComputeOp::Mov)
    } else if name == b"bic".as_slice() {
        Some(ComputeOp::Bic)
    } else if name == b"mvn".as_slice() {
        Some(ComputeOp::Mvn)
    } else {
        None
    }
}

#[tactic(auto, unfolding(crate::specs::Names::compare_of))]
fn compare_in(name: &[u8]) -> Option<CompareOp>
    ensures { result ≡ compare_of name.now }
{
    if name == b"tst".as_slice() {
        Some(CompareOp::Tst)
    } else if name == b"teq".as_slice() {
        Some(CompareOp::Teq)
    } else if name == b"cmp".as_slice() {
        Some(CompareOp::Cmp)
    } else if name == b"cmn".as_slice() {
        Some(CompareOp::Cmn)
    } else {
        None
    }
}

#[tactic(auto, unfolding(crate::specs::Names::other_of))]
fn other_in(name: &[u8]) -> Option<Base>
    ensures { result ≡ other_of name.now }
{
    if name == b"mul".as_slice() {
        Some(Base::Multiply { accumulate: false })
    } else if name == b"mla".as_slice() {
        Some(Base::Multiply { accumulate: true })
    } else if name == b"ldr".as_slice() {
        Some(Base::Load)
    } else if name == b"str".as_slice() {
        Some(Base::Store)
    } else if name == b"ldm".as_slice() {
        Some(Base::Block { load: true })
    } else if name == b"stm".as_slice() {
        Some(Base::Block { load: false })
    } else if name == b"swp".as_slice() {
        Some(Base::Swap)
    } else if name == b"mrs".as_slice() {
        Some(Base::ReadStatus)
    } else if name == b"msr".as_slice() {
        Some(Base::WriteStatus)
    } else if name == b"swi".as_slice() {
        Some(Base::Interrupt)
    } else {
        None
    }
}

fn three_base(name: &[u8]) -> Option<Base>
    ensures { result ≡ three_base_of name.now }
{
    if let Some(op) = compute_in(name) {
        return Some(Base::Compute(op));
    }
    match compare_in(name) {
        Some(op) => Some(Base::Compare(op)),
        None => other_in(name),
    }
}

#[tactic(auto, unfolding(crate::specs::Names::long_base))]
fn long_base(name: &[u8]) -> Option<Base>
    ensures { result ≡ long_base_of name.now }
{
    if name == b"umull".as_slice() {
        Some(Base::MultiplyLong {
            signed: false,
            accumulate: false,
        })
    } else if name == b"umlal".as_slice() {
        Some(Base::MultiplyLong {
            signed: false,
            accumulate: true,
        })
    } else if name == b"smull".as_slice() {
        Some(Base::MultiplyLong {
            signed: true,
            accumulate: false,
        })
    } else if name == b"smlal".as_slice() {
        Some(Base::MultiplyLong {
            signed: true,
            accumulate: true,
        })
    } else {
        None
    }
}

fn set_in(suffix: Suffix) -> Option<bool>
    ensures { result ≡ set_with suffix }
{
    match suffix {
        Suffix::Plain => Some(false),
        Suffix::Set => Some(true),
        _ => None,
    }
}

fn plain(name: Mnemonic, suffix: Suffix) -> Option<Mnemonic>
    ensures { result ≡ plain_of name suffix }
{
    match suffix {
        Suffix::Plain => Some(name),
        _ => None,
    }
}

fn transfer(load: bool, byte: bool, user: bool) -> Option<Mnemonic>
    ensures { result ≡ Some (Mnemonic.Transfer load byte user) }
{
    Some(Mnemonic::Transfer { load, byte, user })
}

fn half(kind: HalfKind) -> Option<Mnemonic>
    ensures { result ≡ Some (Mnemonic.Half kind) }
{
    Some(Mnemonic::Half { kind })
}

fn load_in(suffix: Suffix) -> Option<Mnemonic>
    ensures { result ≡ load_of suffix }
{
    match suffix {
        Suffix::Plain => transfer(true, false, false),
        Suffix::Byte => transfer(true, true, false),
        Suffix::User => transfer(true, false, true),
        Suffix::ByteUser => transfer(true, true, true),
        Suffix::Half => half(HalfKind::LoadHalf),
        Suffix::SignedByte => half(HalfKind::LoadSignedByte),
        Suffix::SignedHalf => half(HalfKind::LoadSignedHalf),
        _ => None,
    }
}

fn store_in(suffix: Suffix) -> Option<Mnemonic>
    ensures { result ≡ store_of suffix }
{
    match suffix {
        Suffix::Plain => transfer(false, false, false),
        Suffix::Byte => transfer(false, true, false),
        Suffix::User => transfer(false, false, true),
        Suffix::ByteUser => transfer(false, true, true),
        Suffix::Half => half(HalfKind::StoreHalf),
        _ => None,
    }
}

fn block(load: bool, pre: bool, up: bool) -> Option<Mnemonic>
    ensures { result ≡ Some (Mnemonic.Block load pre up) }
{
    Some(Mnemonic::Block { load, pre, up })
}

fn block_in(load: bool, suffix: Suffix) -> Option<Mnemonic>
    ensures { result ≡ block_name_of load suffix }
{
    match suffix {
        Suffix::IncrementAfter => block(load, false, true),
        Suffix::IncrementBefore => block(load, true, true),
        Suffix::DecrementAfter => block(load, false, false),
        Suffix::DecrementBefore => block(load, true, false),
        _ => None,
    }
}

fn swap_in(suffix: Suffix) -> Option<Mnemonic>
    ensures { result ≡ swap_of suffix }
{
    match suffix {
        Suffix::Plain => Some(Mnemonic::Swap { byte: false }),
        Suffix::Byte => Some(Mnemonic::Swap { byte: true }),
        _ => None,
    }
}

/// The name of these first letters with this suffix, if they may have it.
#[tactic(auto, unfolding(crate::specs::Names::mnemonic_of))]
fn mnemonic_in(base: Base, suffix: Suffix) -> Option<Mnemonic>
    ensures { result ≡ mnemonic_with base suffix }
{
    match base {
        Base::Compute(op) => set_in(suffix).map(|set| Mnemonic::Compute { op, set }),
        Base::Compare(op) => plain(Mnemonic::Compare { op }, suffix),
        Base::Multiply { accumulate } => {
            set_in(suffix).map(|set| Mnemonic::Multiply { accumulate, set })
        }
        Base::MultiplyLong { signed, accumulate } => {
            set_in(suffix).map(|set| {
                Mnemonic::MultiplyLong {
                    signed,
                    accumulate,
                    set,
                }
            })
        }
        Base::Load => load_in(suffix),
        Base::Store => store_in(suffix),
        Base::Block { load } => block_in(load, suffix),
        Base::Swap => swap_in(suffix),
        Base::ReadStatus => plain(Mnemonic::ReadStatus, suffix),
        Base::WriteStatus => plain(Mnemonic::WriteStatus, suffix),
        Base::Interrupt => plain(Mnemonic::Interrupt, suffix),
    }
}

/// The name that begins so and goes on with these letters.
#[tactic(auto, unfolding(crate::specs::Names::with_tail))]
fn with_tail(letters: &[u8], base: Option<Base>) -> Option<ArmName>
    ensures { result ≡ with_tail_of letters.now base }
{
    let base = base?;
    let (cond, rest) = split_condition(letters);
    let suffix = suffix_in(rest)?;
    let mnemonic = mnemonic_in(base, suffix)?;
    Some(ArmName { cond, mnemonic })
}

#[tactic(auto, unfolding(crate::specs::Names::long_name))]
fn long_name(word: &[u8]) -> Option<ArmName>
    ensures { result ≡ long_name_of word.now }
{
    if word.len() < 5 {
        return None;
    }
    with_tail(&word[5..], long_base(&word[..5]))
}

#[tactic(auto, unfolding(crate::specs::Names::three_name))]
fn three_name(word: &[u8]) -> Option<ArmName>
    ensures { result ≡ three_name_of word.now }
{
    if word.len() < 3 {
        return None;
    }
    with_tail(&word[3..], three_base(&word[..3]))
}

fn conditional(mnemonic: Mnemonic, letters: &[u8]) -> Option<ArmName>
    ensures { result ≡ conditional_of mnemonic letters.now }
{
    whole_condition(letters).map(|cond| ArmName { cond, mnemonic })
}

fn longer_branch(letters: &[u8]) -> Option<ArmName>
    ensures { result ≡ longer_branch_of letters.now }
{
    let Some((first, rest)) = letters.split_first() else {
        return None;
    };
    if *first == b'l' {
        return conditional(Mnemonic::Branch { link: true }, rest);
    }
    if *first == b'x' {
        return conditional(Mnemonic::Exchange, rest);
    }
    None
}

fn branch_name(word: &[u8]) -> Option<ArmName>
    ensures { result ≡ branch_name_of word.now }
{
    let Some((first, letters)) = word.split_first() else {
        return None;
    };
    if *first != b'b' {
        return None;
    }
    match conditional(Mnemonic::Branch { link: false }, letters) {
        Some(name) => Some(name),
        None => longer_branch(letters),
    }
}

/// The statement that a word names.
#[tactic(auto, unfolding(crate::specs::Names::arm_name))]
pub(crate) fn arm_name(word: &[u8]) -> Option<ArmName>
    ensures { result ≡ arm_name_of word.now }
{
    if let Some(name) = branch_name(word) {
        return Some(name);
    }
    match three_name(word) {
        Some(name) => Some(name),
        None => long_name(word),
    }
}
