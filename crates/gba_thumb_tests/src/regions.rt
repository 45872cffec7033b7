//! A small memory with a cartridge's prices of code.

use gba_bus::{Bus, Width};
use gba_processor_tests::Ram;

/// The memory of the ARM tests, slow for data: an access costs 7, or 5 where it is sequential. Code costs 1 a halfword
/// or word, but in the cartridge, at 08000000h, 5 and 3 a halfword, and 8 and 6 a word.
#[derive(Clone, Copy)]
pub struct Regions {
    ram: Ram,
}

impl Regions {
    /// Memory full of zeros.
    pub fn new() -> Regions {
        Regions {
            ram: Ram::new(true),
        }
    }
}

impl Bus for Regions {
    ghost use Rattle.gba_processor_tests.specs.declared.ram.Ram.{Ram};
    ghost use Rattle.gba_processor_tests.specs.RamBus.{ram_code, ram_load, ram_store};
    ghost use Rattle.gba_processor_tests.specs.RamLaws.{
      ram_code_fits,
      ram_load_prices,
      ram_loads_fit,
      ram_store_prices,
    };
    ghost use Rattle.gba_thumb_tests.specs.Prices.{region_code_price};
    ghost use Rattle.gba_thumb_tests.specs.PriceLaws.{region_code_prices};

    ghost State = { Ram };

    ghost state = { λ regions. regions.ram };

    ghost code_of = { ram_code };

    ghost code_price_of = { region_code_price };

    ghost load_of = { ram_load };

    ghost store_of = { ram_store };

    ghost code_prices = { region_code_prices };

    ghost load_prices = { ram_load_prices };

    ghost store_prices = { ram_store_prices };

    ghost code_fits = { ram_code_fits };

    ghost loads_fit = { ram_loads_fit };

    fn code(&mut self, address: u32, width: Width) -> u32 {
        self.ram.code(address, width)
    }

    fn code_price(&self, address: u32, width: Width, sequential: bool) -> u32 {
        if address >> 24 != 8 {
            return 1;
        }
        match (width, sequential) {
            (Width::Word, true) => 6,
            (Width::Word, false) => 8,
            (Width::Half, true) => 3,
            (Width::Half, false) => 5,
            (Width::Byte, true) => 2,
            (Width::Byte, false) => 4,
        }
    }

    fn load(&mut self, from: u32, address: u32, width: Width, sequential: bool) -> (u32, u32) {
        self.ram.load(from, address, width, sequential)
    }

    fn store(&mut self, address: u32, width: Width, value: u32, sequential: bool) -> u32 {
        self.ram.store(address, width, value, sequential)
    }
}
