//! What is frozen of a console.

use gba_numbers::Field;

/// A console that is printed: contracts see its numbers, with the bytes of its queues and of its wave. Whether each is
/// in its range isn't asked.
pub trait Freezing {
    ghost use Rattle.std.specs.Prelude.{◌≡◌, ◌<◌, ◌≤◌, ◌==◌, true, length, if◌then◌else◌};
    ghost use Rattle.gba_numbers.specs.Fields.{is_field, place_of};
    ghost use Rattle.gba_numbers.specs.Numbers.{ConsoleNumbers, value_of};
    ghost use Rattle.gba_frozen_text.specs.Text.{is_printable};

    ghost numbers: { Self → ConsoleNumbers };

    /// A number of the console, which is no byte of a queue or of the wave.
    fn value(&self, field: Field) -> u64
        requires known { is_field field ≡ true }
        requires single { place_of field < 138 }
        ensures value { result ≡ value_of field (numbers self.now) }
        ensures printable { is_printable field result ≡ true };

    /// The bytes that a sound queue holds, oldest first, by its number: 0 for A and 1 for B.
    fn queue(&self, queue: u32) -> &[u8]
        requires { queue < 2 }
        ensures bytes { result.now ≡ (if queue == 0 then (numbers self.now).queue_a else (numbers self.now).queue_b) }
        ensures few { length result.now ≤ 32 };

    /// The bytes of a bank of channel 3's wave.
    fn wave(&self, bank: u32) -> &[u8; 16]
        requires { bank < 2 }
        ensures { result.now ≡ (if bank == 0 then (numbers self.now).wave0 else (numbers self.now).wave1) };
}
