//! The numbers of a console together.

ghost use Rattle.std.specs.Prelude.{◌≡◌, ◌≤◌, ◌<◌, ◌==◌, true, if◌then◌else◌};
ghost use Rattle.arrayvec.specs.ArrayVec.{array_vec_len};
ghost use Rattle.gba_numbers.specs.Numbers.{resized};

use crate::fields::Field;
use crate::places::{NUMBERS, place};
use arrayvec::ArrayVec;
use std::marker::Model;

/// The most bytes of a sound queue.
const QUEUE_ROOM: usize = 32;

/// Where the lengths of the queues stand.
const LENGTH_A: usize = 76;

const LENGTH_B: usize = 78;

/// CPSR's place, and CPSR at reset.
const STATUS: usize = 33;

const RESET_STATUS: u64 = 0xD3;

/// Where the bytes of queue A, of queue B, of bank 0 and of bank 1 begin.
const QUEUE_A: usize = NUMBERS;

const QUEUE_B: usize = 170;

const WAVE_0: usize = 202;

const WAVE_1: usize = 218;

/// Gives a queue another length, and keeps the bytes below it; new ones are 0.
fn resize(queue: &mut ArrayVec<u8, 32>, count: usize)
    requires { count ≤ 32 }
    ensures items { queue.new.items ≡ resized count queue.old.items }
    ensures len { array_vec_len queue.new ≡ count }
{
    queue.truncate(count);
    let more = count - queue.len();
    match queue.try_extend_from_slice(&[0; QUEUE_ROOM][..more]) {
        Ok(()) => {}
        Err(_) => unreachable!(),
    }
}

/// The numbers of a console, but for its memories. Contracts see the record of the numbers that stand by themselves, in
/// the order of their places, and of the bytes of the two queues and of the wave's two banks.
#[derive(Drop)]
pub struct Numbers {
    values: [u64; NUMBERS],
    queue_a: ArrayVec<u8, 32>,
    queue_b: ArrayVec<u8, 32>,
    wave0: [u8; 16],
    wave1: [u8; 16],
}

impl Model for Numbers {
    ghost use Rattle.std.specs.Prelude.{◌≡◌, length, slice_index};
    ghost use Rattle.arrayvec.specs.ArrayVec.{array_vec_len};
    ghost use Rattle.gba_numbers.specs.Numbers.{ConsoleNumbers, length_a, length_b};

    ghost Value = { ConsoleNumbers };

    ghost view = { λ n. record {
      values = n.values;
      queue_a = n.queue_a.items;
      queue_b = n.queue_b.items;
      wave0 = n.wave0;
      wave1 = n.wave1;
    } };

    ghost invariant = { λ n.
        (array_vec_len n.queue_a ≡ slice_index n.values length_a)
        × (array_vec_len n.queue_b ≡ slice_index n.values length_b)
        × (length n.values ≡ 138) × (length n.wave0 ≡ 16) × (length n.wave1 ≡ 16) };
}

impl Numbers {
    ghost use Rattle.gba_numbers.specs.Fields.{is_field, place_of};
    ghost use Rattle.gba_numbers.specs.Ranges.{field_fits};
    ghost use Rattle.gba_numbers.specs.Numbers.{AreWhole, is_there, numbers_at_first, value_of, with_single, with_value};

    /// Every number 0, but CPSR as it is at reset; the queues hold nothing.
    #[tactic(auto, unfolding(crate::specs::Numbers::numbers_at_first))]
    pub fn new() -> Numbers
        ensures { result ≡ numbers_at_first }
    {
        let mut values = [0; NUMBERS];
        values[STATUS] = RESET_STATUS;
        Numbers {
            values,
            queue_a: ArrayVec::new(),
            queue_b: ArrayVec::new(),
            wave0: [0; 16],
            wave1: [0; 16],
        }
    }

    /// How many numbers there are, and that a queue's length is that of its bytes.
    pub fn is_whole(&self)
        ensures { AreWhole self.now }
    {
        let _length = self.queue_a.len();
        let _length = self.queue_b.len();
    }

    /// Whether a number is there: a byte of a queue has to be one of those that the queue holds.
    #[tactic(auto, unfolding(crate::specs::Numbers::is_there))]
    pub fn has(&self, field: Field) -> bool
        requires { is_field field ≡ true }
        ensures { result ≡ is_there (place_of field) self.now }
    {
        let place = place(field);
        if place < QUEUE_A {
            true
        } else if place < QUEUE_B {
            place - QUEUE_A < self.queue_a.len()
        } else if place < WAVE_0 {
            place - QUEUE_B < self.queue_b.len()
        } else {
            true
        }
    }

    /// A number. A byte of a queue has to be one of those that the queue holds.
    #[tactic(auto, unfolding(crate::specs::Numbers::is_there, crate::specs::Numbers::value_at))]
    pub fn value(&self, field: Field) -> u64
        requires known { is_field field ≡ true }
        requires there { is_there (place_of field) self.now ≡ true }
        ensures { result ≡ value_of field self.now }
    {
        let place = place(field);
        if place < QUEUE_A {
            self.values[place]
        } else if place < QUEUE_B {
            u64::from(self.queue_a.as_slice()[place - QUEUE_A])
        } else if place < WAVE_0 {
            u64::from(self.queue_b.as_slice()[place - QUEUE_B])
        } else if place < WAVE_1 {
            u64::from(self.wave0[place - WAVE_0])
        } else {
            u64::from(self.wave1[place - WAVE_1])
        }
    }

    /// Sets a number that stands by itself.
    #[tactic(auto, unfolding(crate::specs::Numbers::with_single))]
    fn set_single(&mut self, place: usize, value: u64)
        requires single { place < 138 }
        requires length_a { place ≡ 76 → value ≤ 32 }
        requires length_b { place ≡ 78 → value ≤ 32 }
        ensures { self.new ≡ with_single place value self.old }
    {
        self.values[place] = value;
        if place == LENGTH_A {
            resize(&mut self.queue_a, value as usize);
        }
        if place == LENGTH_B {
            resize(&mut self.queue_b, value as usize);
        }
    }

    /// Sets a number to one of its range, and changes no other: but with the length of a queue its bytes below the new
    /// length stay, and new ones are 0. A byte of a queue has to be one of those that the queue holds.
    #[tactic(auto, unfolding(crate::specs::Numbers::is_there, crate::specs::Numbers::with_at))]
    pub fn set(&mut self, field: Field, value: u64)
        requires known { is_field field ≡ true }
        requires there { is_there (place_of field) self.old ≡ true }
        requires fits { field_fits field value ≡ true }
        ensures { self.new ≡ with_value field value self.old }
    {
        let place = place(field);
        if place < QUEUE_A {
            self.set_single(place, value);
        } else if place < QUEUE_B {
            self.queue_a.as_mut_slice()[place - QUEUE_A] = value as u8;
        } else if place < WAVE_0 {
            self.queue_b.as_mut_slice()[place - QUEUE_B] = value as u8;
        } else if place < WAVE_1 {
            self.wave0[place - WAVE_0] = value as u8;
        } else {
            self.wave1[place - WAVE_1] = value as u8;
        }
    }
}
