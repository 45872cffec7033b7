//! A small memory as a bus.

ghost use Rattle.std.specs.Prelude.{◌≡◌, ◌≤◌};
ghost use Rattle.gba_processor_tests.specs.Places.{place};

use gba_bus::{Bus, Width};

/// Three kibibytes of memory, at 02000000h, 03000000h and 08000000h; every other address reads 0 and drops writes. Each
/// access costs 1, but where the memory is slow: then a code access costs 2 if it is sequential, else 3, and a data
/// access 5 or 7.
#[derive(Clone, Copy)]
pub struct Ram {
    bytes: [u8; 3072],
    slow: bool,
}

// Which byte of the memory an address has; 3072 is none.
fn place(address: u64) -> usize
    ensures place { result ≡ place address }
    ensures most { result ≤ 3072 }
{
    match address / 1024 {
        0x8000 => (address % 1024) as usize,
        0xc000 => 1024 + (address % 1024) as usize,
        0x2_0000 => 2048 + (address % 1024) as usize,
        _ => 3072,
    }
}

impl Ram {
    ghost use Rattle.std.specs.Prelude.{◌≡◌, ◌+◌, ◌<◌, ◌^◌};
    ghost use Rattle.gba_processor_tests.specs.RamBus.{byte_at, data_price, number_at, with_byte, with_number};

    /// Memory full of zeros.
    pub fn new(slow: bool) -> Ram {
        Ram {
            bytes: [0; 3072],
            slow,
        }
    }

    fn byte(&self, address: u32, further: u32) -> u32
        requires { further < 4 }
        ensures value { result ≡ byte_at self.now (address + further) }
        ensures most { result < 256 }
    {
        let place = place(u64::from(address) + u64::from(further));
        if place < 3072 {
            u32::from(self.bytes[place])
        } else {
            0
        }
    }

    fn set_byte(&mut self, address: u32, further: u32, value: u32)
        requires { further < 4 }
        ensures { self.new ≡ with_byte (address + further) value self.old }
    {
        let place = place(u64::from(address) + u64::from(further));
        if place < 3072 {
            self.bytes[place] = (value % 256) as u8;
        }
    }

    fn number(&self, address: u32, width: Width) -> u32
        ensures { result ≡ number_at self.now address width }
    {
        match width {
            Width::Byte => self.byte(address, 0),
            Width::Half => self.byte(address, 0) + 256 * self.byte(address, 1),
            Width::Word => {
                let low = self.byte(address, 0) + 256 * self.byte(address, 1);
                low + 65536 * self.byte(address, 2) + 16777216 * self.byte(address, 3)
            }
        }
    }

    fn set_number(&mut self, address: u32, width: Width, value: u32)
        ensures { self.new ≡ with_number address width value self.old }
    {
        self.set_byte(address, 0, value);
        if width == Width::Byte {
            return;
        }
        self.set_byte(address, 1, value / 256);
        if width == Width::Half {
            return;
        }
        self.set_byte(address, 2, value / 65536);
        self.set_byte(address, 3, value / 16777216);
    }

    fn data_price(&self, sequential: bool) -> u32
        ensures { result ≡ data_price self.now sequential }
    {
        match (self.slow, sequential) {
            (true, true) => 5,
            (true, false) => 7,
            (false, _) => 1,
        }
    }
}

impl Bus for Ram {
    ghost use Rattle.gba_processor_tests.specs.declared.ram.Ram.{Ram};
    ghost use Rattle.gba_processor_tests.specs.RamBus.{ram_code, ram_code_price, ram_load, ram_store};
    ghost use Rattle.gba_processor_tests.specs.RamLaws.{
      ram_code_fits,
      ram_code_prices,
      ram_load_prices,
      ram_loads_fit,
      ram_store_prices,
    };

    ghost State = { Ram };

    ghost state = { λ ram. ram };

    ghost code_of = { ram_code };

    ghost code_price_of = { ram_code_price };

    ghost load_of = { ram_load };

    ghost store_of = { ram_store };

    ghost code_prices = { ram_code_prices };

    ghost load_prices = { ram_load_prices };

    ghost store_prices = { ram_store_prices };

    ghost code_fits = { ram_code_fits };

    ghost loads_fit = { ram_loads_fit };

    fn code(&mut self, address: u32, width: Width) -> u32 {
        self.number(address, width)
    }

    fn code_price(&self, _address: u32, _width: Width, sequential: bool) -> u32 {
        match (self.slow, sequential) {
            (true, true) => 2,
            (true, false) => 3,
            (false, _) => 1,
        }
    }

    fn load(&mut self, _from: u32, address: u32, width: Width, sequential: bool) -> (u32, u32) {
        (self.number(address, width), self.data_price(sequential))
    }

    fn store(&mut self, address: u32, width: Width, value: u32, sequential: bool) -> u32 {
        self.set_number(address, width, value);
        self.data_price(sequential)
    }
}
