//! What a data operation gives.

/// A result with the carry and the overflow that go with it.
#[derive(Clone, Copy)]
pub struct Outcome {
    pub value: u32,
    pub carry: bool,
    pub overflow: bool,
}
