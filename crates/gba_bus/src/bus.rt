//! What an instruction asks of memory and devices.

ghost use Rattle.std.specs.Prelude.{◌≡◌};
ghost use Rattle.gba_bus.specs.Meanings.{
  Code,
  CodeFits,
  CodePriced,
  Load,
  LoadsFit,
  LoadsPriced,
  Price,
  Store,
  StoresPriced,
};

use crate::Width;

/// Memory and devices as a processor sees them. What a bus answers and leaves is a function of its state. Prices are in
/// cycles, each from 1 to 18. A value that is read has zeros above its width.
pub trait Bus {
    ghost State: { Type 0 };

    ghost state: { Self → State };

    ghost code_of: { Code State };

    ghost code_price_of: { Price State };

    ghost load_of: { Load State };

    ghost store_of: { Store State };

    /// Reads the instruction at `address`, a word or a halfword, with zeros above its width.
    fn code(&mut self, address: u32, width: Width) -> u32
        ensures value { result ≡ (code_of (state self.old) address width).value }
        ensures after { state self.new ≡ (code_of (state self.old) address width).after };

    /// What it costs to read an instruction at `address`, in cycles.
    fn code_price(&self, address: u32, width: Width, sequential: bool) -> u32
        ensures { result ≡ code_price_of (state self.now) address width sequential };

    /// Reads data for the instruction at `from`: the value, with zeros above its width, and the price in cycles.
    fn load(&mut self, from: u32, address: u32, width: Width, sequential: bool) -> (u32, u32)
        ensures value { result.0 ≡ (load_of (state self.old) from address width sequential).value }
        ensures price { result.1 ≡ (load_of (state self.old) from address width sequential).price }
        ensures after { state self.new ≡ (load_of (state self.old) from address width sequential).after };

    /// Writes the low bits of `value`, as many as `width` has, and answers the price in cycles.
    fn store(&mut self, address: u32, width: Width, value: u32, sequential: bool) -> u32
        ensures price { result ≡ (store_of (state self.old) address width value sequential).price }
        ensures after { state self.new ≡ (store_of (state self.old) address width value sequential).after };

    ghost code_prices: { CodePriced code_price_of };

    ghost load_prices: { LoadsPriced load_of };

    ghost store_prices: { StoresPriced store_of };

    ghost code_fits: { CodeFits code_of };

    ghost loads_fit: { LoadsFit load_of };
}
