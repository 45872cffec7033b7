//! The delays of a cable.

ghost use Rattle.std.specs.Prelude.{ℕ, ◌≡◌, ◌≢◌, ◌⊎◌, ◌<◌, ◌≤◌, slice_index};
ghost use Rattle.link_node.specs.Delays.{hop_of, all_delays, AreDelays};

/// How many cycles a signal takes from each player to each other one: a row for each sender, and in it a number for
/// each receiver. On a cable each is 1 to 1,024, and those of a player to itself are never asked for.
#[derive(Clone, Copy, Debug, PartialEq, Eq)]
pub struct Delays {
    pub rows: [[u64; 4]; 4],
}

/// A row with one delay changed.
fn row_with(row: &[u64; 4], receiver: usize, cycles: u64) -> [u64; 4]
    requires { receiver < 4 }
    ensures changed { slice_index result receiver ≡ cycles }
    ensures others { (i : ℕ) → i ≢ receiver → slice_index result i ≡ slice_index row.now i }
{
    let mut changed = *row;
    changed[receiver] = cycles;
    changed
}

impl Delays {
    /// One delay for all, in cycles.
    pub fn all(cycles: u64) -> Delays
        ensures value { result ≡ all_delays cycles }
        ensures within { 0 < cycles → cycles ≤ 1024 → AreDelays result }
    {
        Delays {
            rows: [[cycles; 4]; 4],
        }
    }

    /// These delays with the one of a sender to a receiver changed. They stay where one of the two isn't below 4.
    pub fn with(&self, sender: usize, receiver: usize, cycles: u64) -> Delays
        ensures changed { sender < 4 → receiver < 4 → hop_of result sender receiver ≡ cycles }
        ensures others { (j i : ℕ) → (j ≢ sender) ⊎ (i ≢ receiver) → hop_of result j i ≡ hop_of self.now j i }
        ensures within { AreDelays self.now → 0 < cycles → cycles ≤ 1024 → AreDelays result }
    {
        let mut changed = *self;
        if sender < 4 && receiver < 4 {
            changed.rows[sender] = row_with(&self.rows[sender], receiver, cycles);
        }
        changed
    }

    /// The delay from one player to another, in cycles, and 0 where one of them isn't below 4.
    pub fn hop(&self, sender: usize, receiver: usize) -> u64
        ensures { result ≡ hop_of self.now sender receiver }
    {
        if sender < 4 && receiver < 4 {
            self.rows[sender][receiver]
        } else {
            0
        }
    }
}
