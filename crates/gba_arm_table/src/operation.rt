//! The operations of the ARM instruction set, as version 4T has it, with the fields of their words.
//!
//! A register is its number, from 0 to 15, in a `u8`. A larger number names no register, and no word has it.

use gba_word::Shift;

/// When an instruction executes, in the order of bits 31 to 28 (ARM Architecture Reference Manual, A3.2).
/// `Never` is number 15; that it never executes is this project's profile.
#[derive(Clone, Copy, Debug, PartialEq, Eq)]
pub enum Condition {
    Equal,
    NotEqual,
    CarrySet,
    CarryClear,
    Minus,
    Plus,
    Overflow,
    NoOverflow,
    Higher,
    LowerOrSame,
    GreaterOrEqual,
    Less,
    Greater,
    LessOrEqual,
    Always,
    Never,
}

/// The data processing operations that write a register, named as in the ARM Architecture Reference Manual
/// (A3.4), in the order of bits 24 to 21. Numbers 8 to 11 are those of `CompareOp`.
#[derive(Clone, Copy, Debug, PartialEq, Eq)]
pub enum ComputeOp {
    And,
    Eor,
    Sub,
    Rsb,
    Add,
    Adc,
    Sbc,
    Rsc,
    Orr = 12,
    Mov,
    Bic,
    Mvn,
}

/// The data processing operations that write the flags alone, numbers 8 to 11 of bits 24 to 21.
#[derive(Clone, Copy, Debug, PartialEq, Eq)]
pub enum CompareOp {
    Tst = 8,
    Teq,
    Cmp,
    Cmn,
}

/// The shifter operand of data processing (ARM Architecture Reference Manual, A5.1).
#[derive(Clone, Copy, Debug, PartialEq, Eq)]
pub enum Operand {
    /// `value` rotated right by twice `turn`, which is 0 to 15.
    Immediate { value: u8, turn: u8 },
    /// The register `rm` shifted by a constant. `amount` is the five bits as they stand, 0 to 31.
    Fixed { rm: u8, kind: Shift, amount: u8 },
    /// The register `rm` shifted by the low byte of the register `rs`.
    ByRegister { rm: u8, kind: Shift, rs: u8 },
}

/// What MSR writes (ARM Architecture Reference Manual, A4.1, MSR).
#[derive(Clone, Copy, Debug, PartialEq, Eq)]
pub enum Source {
    /// `value` rotated right by twice `turn`, which is 0 to 15.
    Immediate { value: u8, turn: u8 },
    /// The register `rm`.
    Plain { rm: u8 },
}

/// The distance of a word or byte transfer from its base (ARM Architecture Reference Manual, A5.2).
#[derive(Clone, Copy, Debug, PartialEq, Eq)]
pub enum TransferOffset {
    /// So many bytes, 0 to 4,095.
    Number { value: u32 },
    /// The register `rm` shifted by a constant. `amount` is the five bits as they stand, 0 to 31.
    Shifted { rm: u8, kind: Shift, amount: u8 },
}

/// The distance of a halfword or signed byte transfer from its base (ARM Architecture Reference Manual, A5.3).
#[derive(Clone, Copy, Debug, PartialEq, Eq)]
pub enum HalfOffset {
    /// So many bytes, 0 to 255.
    Number { value: u32 },
    /// The register `rm`.
    Plain { rm: u8 },
}

/// What a halfword or signed byte transfer moves (ARM Architecture Reference Manual, A5.3): STRH, LDRH, LDRSB, LDRSH.
#[derive(Clone, Copy, Debug, PartialEq, Eq)]
pub enum HalfKind {
    StoreHalf,
    LoadHalf,
    LoadSignedByte,
    LoadSignedHalf,
}

/// An operation with the fields of its word. In every transfer `pre` is the bit P (the offset goes on before the
/// access), `up` the bit U (it is added), and `write` the bit W (the base takes the sum).
#[derive(Clone, Copy, Debug, PartialEq, Eq)]
pub enum ArmOp {
    /// BX.
    Exchange {
        cond: Condition,
        rm: u8,
    },
    /// MUL, and MLA with `accumulate`. `set` is the bit S: the flags are made.
    Multiply {
        cond: Condition,
        accumulate: bool,
        set: bool,
        rd: u8,
        rn: u8,
        rs: u8,
        rm: u8,
    },
    /// UMULL, UMLAL, SMULL, SMLAL. `hi` takes the high half and `lo` the low one.
    MultiplyLong {
        cond: Condition,
        signed: bool,
        accumulate: bool,
        set: bool,
        hi: u8,
        lo: u8,
        rs: u8,
        rm: u8,
    },
    /// SWP, and SWPB with `byte`.
    Swap {
        cond: Condition,
        byte: bool,
        rn: u8,
        rd: u8,
        rm: u8,
    },
    /// LDRH, STRH, LDRSB, LDRSH.
    Half {
        cond: Condition,
        kind: HalfKind,
        pre: bool,
        up: bool,
        write: bool,
        rn: u8,
        rd: u8,
        offset: HalfOffset,
    },
    /// MRS: `rd` takes CPSR, or the SPSR with `saved`.
    ReadStatus {
        cond: Condition,
        saved: bool,
        rd: u8,
    },
    /// MSR to CPSR, or to the SPSR with `saved`. Bits 3, 2, 1 and 0 of `fields` choose bytes 3, 2, 1 and 0.
    WriteStatus {
        cond: Condition,
        saved: bool,
        fields: u8,
        source: Source,
    },
    /// Data processing that writes `rd`. `set` is the bit S: the flags are made.
    Compute {
        cond: Condition,
        op: ComputeOp,
        set: bool,
        rn: u8,
        rd: u8,
        operand: Operand,
    },
    /// Data processing that writes the flags alone.
    Compare {
        cond: Condition,
        op: CompareOp,
        rn: u8,
        operand: Operand,
    },
    /// LDR and STR of a word, or of a byte with `byte`.
    Transfer {
        cond: Condition,
        load: bool,
        byte: bool,
        pre: bool,
        up: bool,
        write: bool,
        rn: u8,
        rd: u8,
        offset: TransferOffset,
    },
    /// LDM and STM. Bit n of `list` is register n, and `user` is the bit S.
    Block {
        cond: Condition,
        load: bool,
        pre: bool,
        up: bool,
        user: bool,
        write: bool,
        rn: u8,
        list: u16,
    },
    /// B, and BL with `link`. `offset` counts words from the branch's address plus 8, from -2^23 to 2^23 - 1.
    Branch {
        cond: Condition,
        link: bool,
        offset: i32,
    },
    /// SWI. `comment` is the low 24 bits.
    Interrupt {
        cond: Condition,
        comment: u32,
    },
}
