//! The kinds of shift.

/// What the barrel shifter does: logical left, logical right, arithmetic right, rotate right, in the order of
/// bits 6 and 5 of an instruction (ARM Architecture Reference Manual, A5.1).
#[derive(Clone, Copy, Debug, PartialEq, Eq)]
pub enum Shift {
    Lsl,
    Lsr,
    Asr,
    Ror,
}
