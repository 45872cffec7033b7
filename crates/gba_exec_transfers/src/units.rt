//! The transfers of LDR, STR, LDM and STM, and what a load reads.

/// What a single load reads.
#[derive(Clone, Copy)]
pub enum LoadUnit {
    Word,
    Byte,
    Half,
    SignedByte,
    SignedHalf,
}

/// A single transfer: `distance` is the offset's value in bytes.
#[derive(Clone, Copy)]
pub struct SingleTransfer {
    pub pre: bool,
    pub up: bool,
    pub write: bool,
    pub rn: u8,
    pub rd: u8,
    pub distance: u32,
}

/// A block transfer: bit n of `list` is register n, and `user` the S bit.
#[derive(Clone, Copy)]
pub struct BlockTransfer {
    pub pre: bool,
    pub up: bool,
    pub user: bool,
    pub write: bool,
    pub rn: u8,
    pub list: u16,
}

/// A block transfer without the S bit and without r15, with what its list says worked out: whether LDM writes the base,
/// how far the first access is from the base, and how far the base moves, both modulo 2^32.
#[derive(Clone, Copy)]
pub struct PlainBlock {
    pub block: BlockTransfer,
    pub load_writes: bool,
    pub first: u32,
    pub moved: u32,
}

/// Where a block's accesses are: its registers, of which an empty list has r15 alone, the address of the lowest of
/// them, and the base moved past them.
#[derive(Clone, Copy)]
pub struct BlockRun {
    pub list: u32,
    pub first: u32,
    pub base: u32,
}
