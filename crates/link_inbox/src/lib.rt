#![tactic(auto)]
//! What waits for a console: signals by arrival, then by sender, with room for all that can be unread.

ghost use Rattle.std.specs.Prelude.{ℕ, false, ◌≡◌, ◌+◌, ◌-◌, ◌<◌, ◌≤◌, ◌++◌, ◌∷◌, [], length, take, drop, IfOk};
ghost use Rattle.std.specs.Vec.{vec_len, vec_capacity};
ghost use Rattle.link_order.specs.Due.{place_due};
ghost use Rattle.link_inbox.specs.Waiting.{has_arrived, next_arrival, arrived, later};

use circular_buffer::HeapCircularBuffer;
use link_core::index_of_due;
use link_node::Incoming;
use std::alloc::{AllocError, Global};
use std::marker::Model;

/// How many signals there is room for. At most 10,236 wait for one console.
const ROOM: usize = 16384;

/// The signals that wait, by arrival, then by sender, and those that were delivered last.
#[derive(Drop)]
pub struct Inbox {
    waits: HeapCircularBuffer<Incoming>,
    due: Vec<Incoming>,
}

impl Model for Inbox {
    ghost use Rattle.std.specs.Prelude.{◌≡◌, ◌≤◌, length};
    ghost use Rattle.std.specs.Vec.{vec_capacity};
    ghost use Rattle.link_inbox.specs.Waiting.{InboxState};

    ghost Value = { InboxState };

    ghost view = { λ b. record { waits = b.waits.items; due = b.due.items } };

    ghost invariant = { λ b.
        (b.waits.capacity ≡ 16384) × (length b.waits.items ≤ 16384) × (16384 ≤ vec_capacity b.due) };
}

/// Puts the last signal of a list in its place among the others.
fn settle(list: &mut [Incoming])
    requires { 0 < length list.old }
    ensures { (rest : _) (one : _) → list.old ≡ rest ++ one ∷ [] → list.new ≡ place_due one rest }
{
    let last = list.len() - 1;
    let one = list[last];
    let index = index_of_due(&list[..last], &one);
    list[index..].rotate_right(1);
}

/// Adds signals to a list that has room for them.
fn add(list: &mut Vec<Incoming>, signals: &[Incoming])
    requires { vec_len list.old + length signals.now ≤ vec_capacity list.old }
    ensures items { list.new.items ≡ list.old.items ++ signals.now }
    ensures room { vec_capacity list.old ≤ vec_capacity list.new }
{
    if list.extend_from_slice(signals).is_err() {
        unreachable!()
    }
}

impl Inbox {
    /// An inbox with these signals, at most 16,384, by arrival, then by sender.
    pub fn new(alloc: Global, signals: &[Incoming]) -> Result<Inbox, AllocError>
        requires { length signals.now ≤ 16384 }
        ensures { IfOk result (λ inbox. inbox.waits ≡ signals.now) }
    {
        let mut waits = HeapCircularBuffer::with_capacity(alloc, ROOM)?;
        let due = Vec::with_capacity(alloc, ROOM)?;
        waits.fill_from_slice(signals);
        Ok(Inbox { waits, due })
    }

    /// Puts a signal in its place.
    pub fn put(&mut self, one: Incoming)
        requires { length self.old.waits < 16384 }
        ensures { self.new.waits ≡ place_due one self.old.waits }
    {
        self.waits.push_back(one);
        settle(self.waits.make_contiguous());
    }

    /// Whether the first signal that waits has arrived by this clock.
    fn has_arrived(&self, clock: u64) -> bool
        ensures { result ≡ has_arrived clock self.now.waits }
    {
        match self.waits.front() {
            Some(one) => one.arrival <= clock,
            None => false,
        }
    }

    /// The arrival of the first signal that waits, or a clock that no run reaches.
    pub fn next_arrival(&self) -> u64
        ensures { result ≡ next_arrival self.now.waits }
    {
        match self.waits.front() {
            Some(one) => one.arrival,
            None => u64::MAX,
        }
    }

    /// Moves the first signal that waits to the list of what is due.
    fn deliver_one(&mut self)
        requires some { 0 < length self.old.waits }
        requires room { length self.old.due < 16384 }
        ensures due { self.new.due ≡ self.old.due ++ take 1 self.old.waits }
        ensures waits { self.new.waits ≡ drop 1 self.old.waits }
    {
        let Some(one) = self.waits.pop_front() else {
            unreachable!()
        };
        if self.due.push(one).is_err() {
            unreachable!()
        }
    }

    /// Moves what has arrived by this clock to the list of what is due, in the same order.
    pub fn deliver(&mut self, clock: u64)
        ensures due { self.new.due ≡ arrived clock self.old.waits }
        ensures waits { self.new.waits ≡ later clock self.old.waits }
    {
        self.due.clear();
        while self.has_arrived(clock) {
            self.deliver_one();
        }
    }

    /// What was delivered last, by arrival, then by sender.
    pub fn due(&self) -> &[Incoming]
        ensures { result.now ≡ self.now.due }
    {
        self.due.as_slice()
    }

    /// The signals that wait, by arrival, then by sender. It takes no memory.
    pub fn into_waiting(self) -> Vec<Incoming>
        ensures { result.items ≡ self.waits }
    {
        let Inbox { waits, due } = self;
        let mut list = due;
        list.clear();
        let (first, second) = waits.as_slices();
        add(&mut list, first);
        add(&mut list, second);
        list
    }
}
