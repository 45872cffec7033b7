//! The core of a board as a bus.

ghost use Rattle.std.specs.Prelude.{◌≡◌, ◌<◌, true};
ghost use Rattle.gba_bus.specs.Regions.{is_bios, is_inner, is_io, is_rom, region_of};
ghost use Rattle.gba_io.specs.Bus.{core_read, core_written, io_offset};

use crate::Core;
use crate::parts::is_calm;
use crate::serial::is_serial;
use gba_bus::{Bus, Width, is_in_bios, is_in_inner, is_in_io, is_in_rom};
use gba_devices::laws::writes_keep;
use gba_register::{load, store};

/// What an access to the inner RAM costs, of any kind: it is quick enough to be told without a look at the prices.
const INNER_PRICE: u32 = 1;

/// The offset of an I/O register from 04000000h.
#[tactic(auto, unfolding(gba_bus::specs::Regions::region_of))]
fn offset_of(address: u32) -> u32
    requires { is_io (region_of address) ≡ true }
    ensures value { result ≡ io_offset address }
    ensures most { result < 0x400 }
{
    address - 0x0400_0000
}

impl Core {
    ghost use Rattle.std.specs.Prelude.{◌≡◌, ◌<◌};
    ghost use Rattle.gba_io.specs.Bus.{core_load, core_read, core_store, core_written, register_loaded, register_written};

    /// What a register reads.
    #[tactic(auto, unfolding(crate::specs::Bus::register_loaded))]
    fn load_register(&mut self, offset: u32, width: Width) -> u32
        requires { offset < 0x400 }
        ensures value { result ≡ register_loaded offset width self.old }
        ensures same { self.new ≡ self.old }
    {
        if is_serial(offset) {
            load(&self.serial, offset, width)
        } else {
            self.devices.load(offset, width)
        }
    }

    /// Writes a register. The serial unit's are written at the clock of the step.
    #[tactic(auto, unfolding(crate::specs::Bus::register_written, crate::specs::SerialRegisters::serial_put))]
    fn store_register(&mut self, offset: u32, width: Width, value: u32)
        requires { offset < 0x400 }
        ensures { self.new ≡ register_written offset width value self.old }
    {
        writes_keep();
        if is_serial(offset) {
            let clock = self.devices.clock();
            store(&mut self.serial, clock, offset, width, value);
        } else {
            self.devices.store(offset, width, value);
        }
        self.calm = is_calm(&self.devices, &self.serial);
    }

    /// What an instruction reads at an address that may be a register's.
    #[tactic(auto, unfolding(crate::specs::Bus::core_read))]
    fn read_anywhere(&mut self, from: u32, address: u32, width: Width) -> u32
        ensures value { result ≡ core_read self.old from address width }
        ensures same { self.new ≡ self.old }
    {
        if is_in_io(address) {
            self.load_register(offset_of(address), width)
        } else {
            self.screen.memory().load(from, address, width)
        }
    }

    /// Writes at an address that may be a register's.
    #[tactic(auto, unfolding(crate::specs::Bus::core_written))]
    fn write_anywhere(&mut self, address: u32, width: Width, value: u32)
        ensures { self.new ≡ core_written self.old address width value }
    {
        if is_in_io(address) {
            self.store_register(offset_of(address), width, value);
        } else {
            let mode = self.devices.set().mode();
            self.screen.store(mode, address, width, value);
        }
    }

    /// A load from anywhere, behind a call, so that the code around it holds nothing for it.
    #[inline(never)]
    fn load_anywhere(
        &mut self,
        from: u32,
        address: u32,
        width: Width,
        sequential: bool,
    ) -> (u32, u32)
        ensures value { result.0 ≡ (core_load self.old from address width sequential).value }
        ensures price { result.1 ≡ (core_load self.old from address width sequential).price }
        ensures after { self.new ≡ (core_load self.old from address width sequential).after }
    {
        let price = self.prices.price(address, width, sequential);
        (self.read_anywhere(from, address, width), price)
    }

    /// A store to anywhere, behind a call too.
    #[inline(never)]
    fn store_anywhere(&mut self, address: u32, width: Width, value: u32, sequential: bool) -> u32
        ensures price { result ≡ (core_store self.old address width value sequential).price }
        ensures after { self.new ≡ (core_store self.old address width value sequential).after }
    {
        let price = self.prices.price(address, width, sequential);
        self.write_anywhere(address, width, value);
        price
    }

    /// An instruction read from anywhere, behind a call too.
    #[inline(never)]
    fn code_anywhere(&mut self, address: u32, width: Width) -> u32
        ensures value { result ≡ core_read self.old address address width }
        ensures same { self.new ≡ self.old }
    {
        self.read_anywhere(address, address, width)
    }

    /// What an instruction is read as, the commonest regions first, each after one test.
    #[tactic(auto, using(crate::proofs::Telling::told_accesses))]
    #[inline]
    fn read_code(&mut self, address: u32, width: Width) -> u32
        ensures value { result ≡ core_read self.old address address width }
        ensures same { self.new ≡ self.old }
    {
        if is_in_bios(address) {
            return self.screen.memory().code_in_bios(address, width);
        }
        if is_in_inner(address) {
            return self.screen.memory().load_inner(address, width);
        }
        if is_in_rom(address) {
            return self.screen.memory().code_in_rom(address, width);
        }
        self.code_anywhere(address, width)
    }
}

impl Bus for Core {
    ghost use Rattle.gba_io.specs.Core.{Core};
    ghost use Rattle.gba_io.specs.Bus.{core_code, core_load, core_price, core_store};
    ghost use Rattle.gba_io.specs.BusLaws.{
      core_code_fits,
      core_code_prices,
      core_load_prices,
      core_loads_fit,
      core_store_prices,
    };

    ghost State = { Core };

    ghost state = { λ core. core };

    ghost code_of = { core_code };

    ghost code_price_of = { core_price };

    ghost load_of = { core_load };

    ghost store_of = { core_store };

    ghost code_prices = { core_code_prices };

    ghost load_prices = { core_load_prices };

    ghost store_prices = { core_store_prices };

    ghost code_fits = { core_code_fits };

    ghost loads_fit = { core_loads_fit };

    fn code(&mut self, address: u32, width: Width) -> u32 {
        self.read_code(address, width)
    }

    fn code_price(&self, address: u32, width: Width, sequential: bool) -> u32 {
        self.prices.price(address, width, sequential)
    }

    #[tactic(auto, using(crate::proofs::Telling::told_accesses))]
    fn load(&mut self, from: u32, address: u32, width: Width, sequential: bool) -> (u32, u32) {
        if is_in_inner(address) {
            return (self.screen.memory().load_inner(address, width), INNER_PRICE);
        }
        self.load_anywhere(from, address, width, sequential)
    }

    #[tactic(auto, using(crate::proofs::Telling::told_accesses))]
    fn store(&mut self, address: u32, width: Width, value: u32, sequential: bool) -> u32 {
        if is_in_inner(address) {
            self.screen.store_inner(address, width, value);
            return INNER_PRICE;
        }
        self.store_anywhere(address, width, value, sequential)
    }
}
