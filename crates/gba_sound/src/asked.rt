//! Which queues want bytes.

/// Whether queue A and queue B ask for DMA.
#[derive(Clone, Copy, Debug, PartialEq, Eq)]
pub struct Asked {
    pub a: bool,
    pub b: bool,
}
