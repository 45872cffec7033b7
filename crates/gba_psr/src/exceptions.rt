//! What makes an exception.

/// The exceptions that come about in this machine: a word without a meaning, SWI, and the interrupt request
/// (ARM Architecture Reference Manual, A2.6).
#[derive(Clone, Copy, Debug, PartialEq, Eq)]
pub enum Exception {
    Undefined,
    Software,
    Interrupt,
}
