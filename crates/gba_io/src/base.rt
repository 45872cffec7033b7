//! Where the lists of what a board makes begin.

/// The clock at which the lists of what a board makes begin, and how much was made by then: at reset, or where they
/// were emptied last.
#[derive(Clone, Copy, Debug, PartialEq, Eq)]
pub struct Base {
    /// In cycles since reset.
    pub clock: u64,
    /// The pairs of samples.
    pub pairs: u64,
    /// The whole frames.
    pub frames: u64,
    /// The transfers that ended.
    pub words: u64,
    /// The cycles of the frame that had passed, below 280,896.
    pub cycles: u64,
}

impl Base {
    ghost use Rattle.std.specs.Prelude.{◌≡◌};
    ghost use Rattle.gba_io.specs.Base.{IsBase, at_reset};

    /// At reset nothing was made.
    pub(crate) fn at_reset() -> Base
        ensures value { result ≡ at_reset }
        ensures sound { IsBase result }
    {
        Base {
            clock: 0,
            pairs: 0,
            frames: 0,
            words: 0,
            cycles: 0,
        }
    }
}
