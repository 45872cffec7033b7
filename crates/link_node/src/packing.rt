//! A signal as two numbers, for the words of a shared table.

ghost use Rattle.std.specs.Prelude.{◌≡◌, ◌+◌, ◌*◌, ◌<◌, ◌≤◌, ◌^◌, ◌↔◌, IfSome, IsSome, IsTrue};
ghost use Rattle.gba_terms.specs.Bits.{field, bit};
ghost use Rattle.link_node.specs.Due.{FitsWidths};
ghost use Rattle.link_node.specs.Packing.{mode_number, numbered_mode, presence, start_speed, start_word, reply_word};
ghost use Rattle.link_node.specs.Packing.{packed_head, packed_words, is_packed, signal_in, packed_start, packed_reply};

use crate::signal::{LinkMode, Signal, Start};

/// The number in the `width` bits of `value` from bit `low` up.
fn bits(value: u64, low: u32, width: u32) -> u64
    requires inside { low + width ≤ 64 }
    requires low { low < 64 }
    requires narrow { width < 64 }
    ensures { result ≡ field value low width }
{
    let mask = (1u64 << width) - 1;
    (value >> low) & mask
}

/// Whether bit `place` of `value` is set.
fn is_set(value: u64, place: u32) -> bool
    requires { place < 64 }
    ensures { result ≡ bit value place }
{
    (value >> place) % 2 == 1
}

fn number_of_mode(mode: LinkMode) -> u64
    ensures value { result ≡ mode_number mode }
    ensures small { result < 4 }
{
    match mode {
        LinkMode::Normal8 => 0,
        LinkMode::Normal32 => 1,
        LinkMode::Multi => 2,
        LinkMode::Other => 3,
    }
}

fn mode_of_number(number: u64) -> LinkMode
    ensures { result ≡ numbered_mode number }
{
    match number {
        0 => LinkMode::Normal8,
        1 => LinkMode::Normal32,
        2 => LinkMode::Multi,
        _ => LinkMode::Other,
    }
}

/// What a start adds to the first number.
fn start_flags(start: Option<Start>) -> u64
    requires { IfSome start (λ s. (s.speed < 4) × (s.word < 2 ^ 32)) }
    ensures value { result ≡ presence start * 2 ^ 42 + start_speed start * 2 ^ 43 }
    ensures small { result < 2 ^ 45 }
{
    match start {
        Some(start) => (1 << 42) + u64::from(start.speed) * (1 << 43),
        None => 0,
    }
}

/// What a start adds to the second number.
fn word_of_start(start: Option<Start>) -> u64
    ensures value { result ≡ start_word start }
    ensures small { result < 2 ^ 32 }
{
    match start {
        Some(start) => u64::from(start.word),
        None => 0,
    }
}

/// What a reply adds to the two numbers.
fn reply_parts(reply: Option<u32>) -> (u64, u64)
    ensures flag { result.0 ≡ presence reply * 2 ^ 45 }
    ensures word { result.1 ≡ reply_word reply * 2 ^ 32 }
    ensures small_flag { result.0 ≤ 2 ^ 45 }
    ensures small_word { result.1 + 2 ^ 32 ≤ 2 ^ 64 }
{
    match reply {
        Some(word) => (1 << 45, u64::from(word) << 32),
        None => (0, 0),
    }
}

/// The two numbers of a signal. The first has the clock in bits 0 to 39, the mode in 40 and 41, in 42 whether there
/// is a start, its speed in 43 and 44, and in 45 whether there is a reply. The second has the start's word in its
/// low half and the reply's in its high half. A part that isn't there is 0.
pub fn pack(s: &Signal) -> (u64, u64)
    requires clock { s.now.clock < 2 ^ 40 }
    requires widths { FitsWidths s.now }
    ensures head { result.0 ≡ packed_head s.now }
    ensures words { result.1 ≡ packed_words s.now }
    ensures inverse { signal_in result.0 result.1 ≡ Some s.now }
{
    let mode = number_of_mode(s.mode) * (1 << 40);
    let start = start_flags(s.start);
    let (reply, reply_word) = reply_parts(s.reply);
    (
        s.clock + mode + start + reply,
        word_of_start(s.start) + reply_word,
    )
}

fn start_of(a: u64, b: u64) -> Option<Start>
    ensures { result ≡ packed_start a b }
{
    if is_set(a, 42) {
        Some(Start {
            speed: bits(a, 43, 2) as u8,
            word: bits(b, 0, 32) as u32,
        })
    } else {
        None
    }
}

fn reply_of(a: u64, b: u64) -> Option<u32>
    ensures { result ≡ packed_reply a b }
{
    if is_set(a, 45) {
        Some(bits(b, 32, 32) as u32)
    } else {
        None
    }
}

fn is_signal(a: u64, b: u64) -> bool
    ensures { result ≡ is_packed a b }
{
    (a >> 46 == 0)
        && (is_set(a, 42) || (bits(a, 43, 2) == 0 && bits(b, 0, 32) == 0))
        && (is_set(a, 45) || bits(b, 32, 32) == 0)
}

/// The one signal that packs to these two numbers. None where the first number has a bit above 45, where bit 42 is 0
/// and the speed or the start's word isn't, or where bit 45 is 0 and the reply's word isn't.
pub fn unpack(a: u64, b: u64) -> Option<Signal>
    ensures value { result ≡ signal_in a b }
    ensures accepted { IsSome result ↔ IsTrue (is_packed a b) }
    ensures clock { IfSome result (λ s. s.clock < 2 ^ 40) }
    ensures widths { IfSome result FitsWidths }
    ensures head { IfSome result (λ s. packed_head s ≡ a) }
    ensures words { IfSome result (λ s. packed_words s ≡ b) }
{
    if !is_signal(a, b) {
        return None;
    }
    Some(Signal {
        clock: bits(a, 0, 40),
        mode: mode_of_number(bits(a, 40, 2)),
        start: start_of(a, b),
        reply: reply_of(a, b),
    })
}

#[cfg(test)]
mod tests;
