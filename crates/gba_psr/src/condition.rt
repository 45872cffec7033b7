//! The condition flags.

/// N, Z, C and V of CPSR (ARM Architecture Reference Manual, A2.5.2).
#[derive(Clone, Copy, Debug, PartialEq, Eq)]
pub struct Flags {
    pub negative: bool,
    pub zero: bool,
    pub carry: bool,
    pub overflow: bool,
}
