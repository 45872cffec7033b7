//! The table of prices.

ghost use Rattle.std.specs.Prelude.{◌≡◌, ◌<◌, ◌++◌, replicate};
ghost use Rattle.gba_bus.specs.Prices.{price};
ghost use Rattle.gba_price_table.specs.Blocks.{all_prices, block_prices};

use gba_bus::{Region, WaitControl, Width, price};
use std::marker::Model;

/// One price, which fits a byte.
fn one(region: Region, width: Width, sequential: bool, waits: &WaitControl) -> u8
    ensures { result ≡ price region width sequential waits.now.value }
{
    price(region, width, sequential, waits) as u8
}

/// The prices of one kind of access in sixteen blocks.
#[tactic(auto, unfolding(crate::specs::Blocks::block_prices))]
fn prices(width: Width, sequential: bool, waits: &WaitControl) -> [u8; 16]
    ensures { result ≡ block_prices width sequential waits.now.value }
{
    let rom0 = one(Region::Rom0, width, sequential, waits);
    let rom1 = one(Region::Rom1, width, sequential, waits);
    let rom2 = one(Region::Rom2, width, sequential, waits);
    let sram = one(Region::Sram, width, sequential, waits);
    [
        one(Region::Bios, width, sequential, waits),
        one(Region::Other, width, sequential, waits),
        one(Region::Work, width, sequential, waits),
        one(Region::Inner, width, sequential, waits),
        one(Region::Io, width, sequential, waits),
        one(Region::Palette, width, sequential, waits),
        one(Region::Vram, width, sequential, waits),
        one(Region::Oam, width, sequential, waits),
        rom0,
        rom0,
        rom1,
        rom1,
        rom2,
        rom2,
        sram,
        sram,
    ]
}

/// The prices in all blocks, by those in the first sixteen: what is above them costs 1.
fn whole(front: &[u8; 16]) -> [u8; 256]
    ensures { result ≡ front.now ++ replicate 240 1 }
{
    let mut all = [1; 256];
    all[..16].copy_from_slice(front);
    all
}

/// The prices of one kind of access in all blocks.
#[tactic(auto, unfolding(crate::specs::Blocks::all_prices))]
fn all_prices(width: Width, sequential: bool, waits: &WaitControl) -> [u8; 256]
    ensures { result ≡ all_prices width sequential waits.now.value }
{
    whole(&prices(width, sequential, waits))
}

/// The prices under one wait control. Contracts see the number of that control, WAITCNT.
#[derive(Drop)]
pub struct PriceTable {
    waits: WaitControl,
    // Halfwords and bytes, then words; each first after a jump, then in a sequence.
    half: [u8; 256],
    next_half: [u8; 256],
    word: [u8; 256],
    next_word: [u8; 256],
}

impl Model for PriceTable {
    ghost use Rattle.std.specs.Prelude.{◌≡◌, ℕ, true, false};
    ghost use Rattle.gba_bus.specs.declared.width.Width.TheVariants.{Half, Word};
    ghost use Rattle.gba_price_table.specs.Blocks.{all_prices};

    ghost Value = { ℕ };

    ghost view = { λ t. t.waits.value };

    ghost invariant = { λ t.
        (t.half ≡ all_prices Half false t.waits.value)
        × (t.next_half ≡ all_prices Half true t.waits.value)
        × (t.word ≡ all_prices Word false t.waits.value)
        × (t.next_word ≡ all_prices Word true t.waits.value) };
}

impl PriceTable {
    ghost use Rattle.std.specs.Prelude.{◌≡◌, ◌<◌, slice_index};
    ghost use Rattle.gba_bus.specs.Prices.{price};
    ghost use Rattle.gba_bus.specs.Regions.{region_of};
    ghost use Rattle.gba_price_table.specs.Blocks.{all_prices};

    /// The prices under a wait control.
    #[inline(never)]
    pub fn new(waits: &WaitControl) -> PriceTable
        ensures { result ≡ waits.now.value }
    {
        PriceTable {
            waits: *waits,
            half: all_prices(Width::Half, false, waits),
            next_half: all_prices(Width::Half, true, waits),
            word: all_prices(Width::Word, false, waits),
            next_word: all_prices(Width::Word, true, waits),
        }
    }

    /// Takes another wait control.
    #[inline(never)]
    pub fn renew(&mut self, waits: &WaitControl)
        ensures { self.new ≡ waits.now.value }
    {
        *self = PriceTable::new(waits);
    }

    /// The wait control.
    pub fn waits(&self) -> WaitControl
        ensures { result.value ≡ self.now }
    {
        self.waits
    }

    /// The price in a block.
    #[tactic(auto, using(crate::proofs::Blocks::all_byte_prices))]
    fn found(&self, block: usize, width: Width, sequential: bool) -> u8
        requires { block < 256 }
        ensures { result ≡ slice_index (all_prices width sequential self.now) block }
    {
        match width {
            Width::Byte | Width::Half => {
                if sequential {
                    self.next_half[block]
                } else {
                    self.half[block]
                }
            }
            Width::Word => {
                if sequential {
                    self.next_word[block]
                } else {
                    self.word[block]
                }
            }
        }
    }

    /// What an access at an address costs, in cycles, as [`gba_bus::price`] says it of the address's region.
    #[tactic(auto, using(crate::proofs::Blocks::block_rules))]
    #[inline]
    pub fn price(&self, address: u32, width: Width, sequential: bool) -> u32
        ensures { result ≡ price (region_of address) width sequential self.now }
    {
        u32::from(self.found((address >> 24) as usize, width, sequential))
    }
}
