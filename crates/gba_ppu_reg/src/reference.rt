//! A reference point.

/// The inner reference point of an affine background (GBATEK, LCD I/O BG Rotation/Scaling): signed numbers as words,
/// with 8 bits behind the point.
#[derive(Clone, Copy, Debug, PartialEq, Eq)]
pub struct Reference {
    pub x: u32,
    pub y: u32,
}

/// A point at reset.
pub(crate) const ORIGIN: Reference = Reference { x: 0, y: 0 };
