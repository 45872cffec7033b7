//! One queue.

ghost use Rattle.std.specs.Prelude.{◌≡◌};

use arrayvec::ArrayVec;
use gba_word::bits;
use std::marker::Model;

/// A queue of direct sound (GBATEK, GBA Sound Channel A and B): 32 bytes at most, which are signed samples, oldest
/// first, and the current byte.
#[derive(Debug, Drop)]
pub struct Queue {
    bytes: ArrayVec<u8, 32>,
    current: u8,
}

impl Model for Queue {
    ghost use Rattle.gba_sound.specs.Queue.{SoundQueue};

    ghost Value = { SoundQueue };

    ghost view = { λ q. record { bytes = q.bytes.items; current = q.current } };
}

impl Queue {
    ghost use Rattle.std.specs.Prelude.{◌≡◌, ◌≤◌, length};
    ghost use Rattle.gba_sound.specs.Queue.{after_push, after_take, bytes_of, empty_queue, has_room, is_half_empty};

    /// An empty queue, whose current byte is 0.
    pub(crate) fn new() -> Queue
        ensures { result ≡ empty_queue }
    {
        Queue {
            bytes: ArrayVec::new(),
            current: 0,
        }
    }

    /// A queue that holds these bytes, oldest first, and has this current byte.
    pub fn of(bytes: &[u8], current: u8) -> Queue
        requires { length bytes.now ≤ 32 }
        ensures { result ≡ record { bytes = bytes.now; current = current } }
    {
        let mut held = ArrayVec::new();
        match held.try_extend_from_slice(bytes) {
            Ok(()) => Queue {
                bytes: held,
                current,
            },
            Err(_) => unreachable!(),
        }
    }

    pub(crate) fn current(&self) -> u8
        ensures { result ≡ self.now.current }
    {
        self.current
    }

    /// The bytes that it holds, oldest first.
    pub(crate) fn bytes(&self) -> &[u8]
        ensures bytes { result.now ≡ self.now.bytes }
        ensures most { length result.now ≤ 32 }
    {
        self.bytes.as_slice()
    }

    /// Adds a word's four bytes, the low one first, or drops them where they don't fit, and answers which.
    pub(crate) fn push(&mut self, word: u32) -> bool
        ensures queue { self.new ≡ after_push word self.old }
        ensures room { result ≡ has_room self.old }
    {
        let bytes = [
            bits(word, 0, 8) as u8,
            bits(word, 8, 8) as u8,
            bits(word, 16, 8) as u8,
            bits(word, 24, 8) as u8,
        ];
        self.bytes.try_extend_from_slice(&bytes).is_ok()
    }

    /// Makes the oldest byte the current one, and answers whether the queue asks for DMA.
    pub(crate) fn take(&mut self) -> bool
        ensures queue { self.new ≡ after_take self.old }
        ensures asks { result ≡ is_half_empty (after_take self.old) }
    {
        if !self.bytes.is_empty() {
            self.current = self.bytes.remove(0);
        }
        self.bytes.len() <= 16
    }
}
