//! Where the words of the table stand, and what they say.

ghost use Rattle.std.specs.Prelude.{◌≡◌, ◌+◌, ◌*◌, ◌%◌, ◌<◌, ◌^◌, Some, IsSome};
ghost use Rattle.link_node.specs.Packing.{signal_in};
ghost use Rattle.link_rule.specs.Words.{clock_place, ring_place, count_of};

use link_node::{Signal, unpack};

/// Where player i's clock word stands.
pub(crate) fn clock_place(player: u32) -> usize
    requires { player < 4 }
    ensures { result ≡ clock_place player }
{
    8193 * player as usize
}

/// Where the first word of player i's signal of this number stands.
pub(crate) fn ring_place(player: u32, number: u64) -> usize
    requires { player < 4 }
    ensures { result ≡ ring_place player number }
{
    8193 * player as usize + 1 + 2 * (number % 4096) as usize
}

/// The signal of two words.
pub(crate) fn signal_of(head: u64, body: u64) -> Signal
    requires { IsSome (signal_in head body) }
    ensures { Some result ≡ signal_in head body }
{
    match unpack(head, body) {
        Some(signal) => signal,
        None => unreachable!(),
    }
}

/// The whole count of a clock word, by how many signals were fetched.
pub(crate) fn count_of(word: u64, taken: u64) -> u64
    requires { count_of word taken < 2 ^ 64 }
    ensures { result ≡ count_of word taken }
{
    taken + (word / (1 << 40) + (1 << 24) - taken % (1 << 24)) % (1 << 24)
}
