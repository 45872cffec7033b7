//! How halfwords are performed: most by the quick form of their ARM operation, the others by equations of their own.

ghost use Rattle.std.specs.Prelude.{◌≡◌};
ghost use Rattle.gba_thumb_exec.specs.Forms.{form_of_half};
ghost use Rattle.gba_thumb_table.specs.Table.{operation};

use gba_arm_table::Condition;
use gba_exec_quick::Quick;

/// An operation in the form in which it is performed.
#[derive(Clone, Copy)]
pub enum Form {
    /// As an ARM operation.
    Quick {
        quick: Quick,
    },
    /// The commonest quick forms, each a form of its own.
    AddNumber {
        rn: u8,
        rd: u8,
        value: u32,
    },
    AddPlain {
        rn: u8,
        rd: u8,
        rm: u8,
    },
    MovPlain {
        rn: u8,
        rd: u8,
        rm: u8,
    },
    SetAddNumber {
        rn: u8,
        rd: u8,
        value: u32,
        turned: bool,
    },
    SetSubNumber {
        rn: u8,
        rd: u8,
        value: u32,
        turned: bool,
    },
    SetMovNumber {
        rn: u8,
        rd: u8,
        value: u32,
        turned: bool,
    },
    SetRsbNumber {
        rn: u8,
        rd: u8,
        value: u32,
        turned: bool,
    },
    SetAddPlain {
        rn: u8,
        rd: u8,
        rm: u8,
    },
    SetSubPlain {
        rn: u8,
        rd: u8,
        rm: u8,
    },
    SetAndPlain {
        rn: u8,
        rd: u8,
        rm: u8,
    },
    SetEorPlain {
        rn: u8,
        rd: u8,
        rm: u8,
    },
    SetAdcPlain {
        rn: u8,
        rd: u8,
        rm: u8,
    },
    SetOrrPlain {
        rn: u8,
        rd: u8,
        rm: u8,
    },
    SetBicPlain {
        rn: u8,
        rd: u8,
        rm: u8,
    },
    SetMvnPlain {
        rn: u8,
        rd: u8,
        rm: u8,
    },
    MoveLeft {
        rn: u8,
        rd: u8,
        rm: u8,
        amount: u8,
    },
    MoveRight {
        rn: u8,
        rd: u8,
        rm: u8,
        amount: u8,
    },
    CmpNumber {
        rn: u8,
        value: u32,
        turned: bool,
    },
    CmpPlain {
        rn: u8,
        rm: u8,
    },
    TstPlain {
        rn: u8,
        rm: u8,
    },
    LoadWord {
        rn: u8,
        rd: u8,
        offset: u32,
    },
    LoadByte {
        rn: u8,
        rd: u8,
        offset: u32,
    },
    StoreWord {
        rn: u8,
        rd: u8,
        offset: u32,
    },
    StoreByte {
        rn: u8,
        rd: u8,
        offset: u32,
    },
    Branch {
        distance: u32,
    },
    /// B by so many bytes modulo 2^32 under the commonest conditions.
    BranchEqual {
        distance: u32,
    },
    BranchNotEqual {
        distance: u32,
    },
    BranchCarrySet {
        distance: u32,
    },
    BranchCarryClear {
        distance: u32,
    },
    /// B by so many bytes modulo 2^32, where the condition holds.
    BranchIf {
        condition: Condition,
        distance: u32,
    },
    /// LDR from so many words above the PC.
    NearLoad {
        rd: u16,
        words: u16,
    },
    /// The address so many words above the PC.
    NearAddress {
        rd: u16,
        words: u16,
    },
    /// The first half of BL.
    LinkHigh {
        n11: u16,
    },
    /// The second half of BL.
    LinkLow {
        n11: u16,
    },
}

/// A halfword with the form of its operation.
#[derive(Clone, Copy)]
pub struct DecodedHalf {
    /// The halfword that was decoded.
    pub half: u16,
    pub(crate) form: Form,
    ghost right: { form ≡ form_of_half (operation half) },
}
