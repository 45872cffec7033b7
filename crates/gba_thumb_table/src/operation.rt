//! The operations of the Thumb instruction set, as version 4T has it, with the fields of their halfwords.
//!
//! The formats have GBATEK's numbers, THUMB.1 to THUMB.19. A field of one bit is a `bool`, and any other field is a
//! `u16` with its bits as they stand: no halfword has a larger number in it than its bits hold. `x3`, `o5`, `n7`, `n8`
//! and `n11` are numbers of 3, 5, 7, 8 and 11 bits. A branch reads its number as a signed one.

/// An operation of the Thumb set. `rs`, `rd`, `rb` and `ro` are registers from 0 to 7, `l` is the bit L (it loads), and
/// `b` the bit B (it moves a byte).
#[derive(Clone, Copy, Debug, PartialEq, Eq)]
pub enum ThumbOp {
    /// LSL, LSR and ASR by a constant, for `op` 0 to 2. The amount is the five bits `o5`.
    Format1 {
        op: u16,
        o5: u16,
        rs: u16,
        rd: u16,
    },
    /// ADD and, with `op`, SUB of `rs` and `x3`: a number with `i`, else a register.
    Format2 {
        i: bool,
        op: bool,
        x3: u16,
        rs: u16,
        rd: u16,
    },
    /// MOV, CMP, ADD and SUB of `rd` and the number `n8`, for `op` 0 to 3.
    Format3 {
        op: u16,
        rd: u16,
        n8: u16,
    },
    /// The sixteen operations on two registers: AND, EOR, LSL, LSR, ASR, ADC, SBC, ROR, TST, NEG, CMP, CMN, ORR, MUL,
    /// BIC and MVN, for `op` 0 to 15.
    Format4 {
        op: u16,
        rs: u16,
        rd: u16,
    },
    /// ADD, CMP, MOV and BX, for `op` 0 to 3. `h1` adds 8 to `rd` and `h2` adds 8 to `rs`.
    Format5 {
        op: u16,
        h1: bool,
        h2: bool,
        rs: u16,
        rd: u16,
    },
    /// LDR from `n8` words past the PC.
    Format6 {
        rd: u16,
        n8: u16,
    },
    /// LDR, STR, LDRB and STRB at `rb` plus `ro`.
    Format7 {
        l: bool,
        b: bool,
        ro: u16,
        rb: u16,
        rd: u16,
    },
    /// STRH, LDRSB, LDRH and LDRSH at `rb` plus `ro`: `s` is the bit S, and `h` the bit H.
    Format8 {
        h: bool,
        s: bool,
        ro: u16,
        rb: u16,
        rd: u16,
    },
    /// LDR, STR, LDRB and STRB at `rb` plus `o5` words or bytes.
    Format9 {
        b: bool,
        l: bool,
        o5: u16,
        rb: u16,
        rd: u16,
    },
    /// LDRH and STRH at `rb` plus `o5` halfwords.
    Format10 {
        l: bool,
        o5: u16,
        rb: u16,
        rd: u16,
    },
    /// LDR and STR at r13 plus `n8` words.
    Format11 {
        l: bool,
        rd: u16,
        n8: u16,
    },
    /// `rd` takes `n8` words past the PC or, with `p`, past r13.
    Format12 {
        p: bool,
        rd: u16,
        n8: u16,
    },
    /// r13 goes up or, with `s`, down by `n7` words.
    Format13 {
        s: bool,
        n7: u16,
    },
    /// PUSH and, with `l`, POP of the registers 0 to 7 in `list8`, bit by bit, and with `r` of r14 or r15.
    Format14 {
        l: bool,
        r: bool,
        list8: u16,
    },
    /// STMIA and LDMIA from `rb` on, with write-back, of the registers 0 to 7 in `list8`.
    Format15 {
        l: bool,
        rb: u16,
        list8: u16,
    },
    /// The branch by `n8` halfwords under the condition of number `cond`, 0 to 13.
    Format16 {
        cond: u16,
        n8: u16,
    },
    /// SWI with the comment `n8`.
    Format17 {
        n8: u16,
    },
    /// The branch by `n11` halfwords.
    Format18 {
        n11: u16,
    },
    /// The first half of BL or, with `second`, its second half.
    Format19 {
        second: bool,
        n11: u16,
    },
}
