//! The quick forms.

use gba_arm_table::{ArmOp, ComputeOp};
use gba_bus::Width;
use gba_exec_transfers::{BlockTransfer, LoadUnit, PlainBlock, SingleTransfer};
use gba_word::Shift;

/// An operation in the form in which it is performed. But for the forms that hold a transfer or the operation itself,
/// no register is r15, a number is already turned, and a shift is by 1 to 31 places.
#[derive(Clone, Copy)]
pub enum Quick {
    /// `rd` takes `op` of `rn` and a number.
    Number {
        op: ComputeOp,
        rn: u8,
        rd: u8,
        value: u32,
    },
    /// `rd` takes `op` of `rn` and `rm`.
    Plain {
        op: ComputeOp,
        rn: u8,
        rd: u8,
        rm: u8,
    },
    /// `rd` takes `op` of `rn` and `rm` shifted.
    Shifted {
        op: ComputeOp,
        rn: u8,
        rd: u8,
        rm: u8,
        kind: Shift,
        amount: u8,
    },
    /// The commonest operations of a number, and of two registers, each a form of its own.
    AddNumber {
        rn: u8,
        rd: u8,
        value: u32,
    },
    SubNumber {
        rn: u8,
        rd: u8,
        value: u32,
    },
    AndNumber {
        rn: u8,
        rd: u8,
        value: u32,
    },
    OrrNumber {
        rn: u8,
        rd: u8,
        value: u32,
    },
    BicNumber {
        rn: u8,
        rd: u8,
        value: u32,
    },
    MovNumber {
        rn: u8,
        rd: u8,
        value: u32,
    },
    AddPlain {
        rn: u8,
        rd: u8,
        rm: u8,
    },
    SubPlain {
        rn: u8,
        rd: u8,
        rm: u8,
    },
    AndPlain {
        rn: u8,
        rd: u8,
        rm: u8,
    },
    OrrPlain {
        rn: u8,
        rd: u8,
        rm: u8,
    },
    EorPlain {
        rn: u8,
        rd: u8,
        rm: u8,
    },
    MovPlain {
        rn: u8,
        rd: u8,
        rm: u8,
    },
    RsbPlain {
        rn: u8,
        rd: u8,
        rm: u8,
    },
    MvnPlain {
        rn: u8,
        rd: u8,
        rm: u8,
    },
    /// Data processing with S. `turned` says that the number's bit 31 is the carry.
    SetNumber {
        op: ComputeOp,
        rn: u8,
        rd: u8,
        value: u32,
        turned: bool,
    },
    SetPlain {
        op: ComputeOp,
        rn: u8,
        rd: u8,
        rm: u8,
    },
    SetShifted {
        op: ComputeOp,
        rn: u8,
        rd: u8,
        rm: u8,
        kind: Shift,
        amount: u8,
    },
    /// The commonest of these, each a form of its own.
    SetAddNumber {
        rn: u8,
        rd: u8,
        value: u32,
        turned: bool,
    },
    SetSubNumber {
        rn: u8,
        rd: u8,
        value: u32,
        turned: bool,
    },
    SetMovNumber {
        rn: u8,
        rd: u8,
        value: u32,
        turned: bool,
    },
    SetAddPlain {
        rn: u8,
        rd: u8,
        rm: u8,
    },
    SetSubPlain {
        rn: u8,
        rd: u8,
        rm: u8,
    },
    SetAndPlain {
        rn: u8,
        rd: u8,
        rm: u8,
    },
    SetEorPlain {
        rn: u8,
        rd: u8,
        rm: u8,
    },
    SetAdcPlain {
        rn: u8,
        rd: u8,
        rm: u8,
    },
    SetOrrPlain {
        rn: u8,
        rd: u8,
        rm: u8,
    },
    SetBicPlain {
        rn: u8,
        rd: u8,
        rm: u8,
    },
    SetMvnPlain {
        rn: u8,
        rd: u8,
        rm: u8,
    },
    SetMovShifted {
        rn: u8,
        rd: u8,
        rm: u8,
        kind: Shift,
        amount: u8,
    },
    /// The flags alone.
    CompareNumber {
        op: ComputeOp,
        rn: u8,
        value: u32,
        turned: bool,
    },
    ComparePlain {
        op: ComputeOp,
        rn: u8,
        rm: u8,
    },
    CompareShifted {
        op: ComputeOp,
        rn: u8,
        rm: u8,
        kind: Shift,
        amount: u8,
    },
    /// The flags of a subtraction: CMP.
    CmpNumber {
        rn: u8,
        value: u32,
        turned: bool,
    },
    CmpPlain {
        rn: u8,
        rm: u8,
    },
    /// LDR, LDRB, STR and STRB at `rn` plus `offset` modulo 2^32, where the base stays.
    LoadWord {
        rn: u8,
        rd: u8,
        offset: u32,
    },
    LoadByte {
        rn: u8,
        rd: u8,
        offset: u32,
    },
    StoreWord {
        rn: u8,
        rd: u8,
        offset: u32,
    },
    StoreByte {
        rn: u8,
        rd: u8,
        offset: u32,
    },
    /// Every other transfer whose distance is a number.
    LoadSingle {
        unit: LoadUnit,
        one: SingleTransfer,
    },
    StoreSingle {
        width: Width,
        one: SingleTransfer,
    },
    /// LDM and STM without the S bit and without r15, and every other one.
    LoadPlain {
        plain: PlainBlock,
    },
    StorePlain {
        plain: PlainBlock,
    },
    LoadBlock {
        block: BlockTransfer,
    },
    StoreBlock {
        block: BlockTransfer,
    },
    /// B and BL to r15 as an operand plus `distance` modulo 2^32.
    Branch {
        distance: u32,
    },
    BranchLink {
        distance: u32,
    },
    /// No quick form.
    Other {
        op: ArmOp,
    },
    /// A word without an operation: the Undefined trap.
    Trap,
}
