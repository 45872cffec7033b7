//! The layers, and their order.

ghost use Rattle.std.specs.Prelude.{◌≡◌, ◌<◌, ◌≤◌};
ghost use Rattle.gba_ppu_mix.specs.Stacks.{background_rank as background_rank_of, layer_bit as bit_of, ranks_of, sprite_rank as sprite_rank_of};

use gba_ppu_dot::BackgroundControl;
use gba_ppu_reg::PictureRegisters;

/// The layers, in the order of their bits in BLDCNT, and what is behind the last one.
#[derive(Clone, Copy, Debug, PartialEq, Eq)]
pub enum Layer {
    Background0,
    Background1,
    Background2,
    Background3,
    Sprites,
    Backdrop,
    Nothing,
}

/// The places of the backgrounds in the order from the front.
#[derive(Clone, Copy, Debug, PartialEq, Eq)]
pub struct Ranks {
    pub background0: u16,
    pub background1: u16,
    pub background2: u16,
    pub background3: u16,
}

/// The backdrop's place in the order: behind every layer.
pub const BACKDROP_RANK: u16 = 0x800;

/// The place of what is behind the backdrop.
pub const NOTHING_RANK: u16 = 0x801;

/// The layer's bit in BLDCNT, and in what a window shows.
pub fn layer_bit(layer: Layer) -> u32
    ensures value { result ≡ bit_of layer }
    ensures most { result ≤ 6 }
{
    match layer {
        Layer::Background0 => 0,
        Layer::Background1 => 1,
        Layer::Background2 => 2,
        Layer::Background3 => 3,
        Layer::Sprites => 4,
        Layer::Backdrop => 5,
        Layer::Nothing => 6,
    }
}

/// The rank of sprites of a priority.
pub fn sprite_rank(priority: u8) -> u16
    ensures { result ≡ sprite_rank_of priority }
{
    8 * u16::from(priority)
}

fn background_rank(r: &PictureRegisters, background: u32) -> u16
    requires { background < 4 }
    ensures { result ≡ background_rank_of r.now background }
{
    8 * u16::from(BackgroundControl::of(r, background).priority()) + background as u16 + 1
}

impl Ranks {
    /// Those of the registers.
    pub fn of(r: &PictureRegisters) -> Ranks
        ensures { result ≡ ranks_of r.now }
    {
        Ranks {
            background0: background_rank(r, 0),
            background1: background_rank(r, 1),
            background2: background_rank(r, 2),
            background3: background_rank(r, 3),
        }
    }
}
