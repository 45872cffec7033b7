//! Where an instruction stands.

/// The address of the instruction that executes, and whether the processor is in Thumb state.
#[derive(Clone, Copy, Debug, PartialEq, Eq)]
pub struct Site {
    pub address: u32,
    pub thumb: bool,
}
