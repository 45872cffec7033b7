//! Why a lane stops.

/// Why a lane stopped: its clock has come to the end, or it waits for a peer, whose clock it saw last as `seen`.
#[derive(Clone, Copy, Debug, PartialEq, Eq)]
pub enum Pause {
    Done,
    Blocked { peer: u32, seen: u64 },
}
