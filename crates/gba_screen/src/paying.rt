//! Lines that are owed are paid: they are drawn by their keys.

ghost use Rattle.std.specs.Prelude.{◌≡◌, ℕ, ◌+◌, ◌<◌, ◌≤◌, [], length, slice_index_or, slice_set, IsTrue, ◌↔◌};
ghost use Rattle.gba_ppu_reg.specs.Registers.{picture_at_reset};
ghost use Rattle.gba_screen.specs.Paying.{AreFresh, owed_line, shown_line};

use crate::lines::draw;
use gba_mem::Memory;
use gba_ppu_reg::PictureRegisters;

/// How far lines are paid, and how many of those that were paid last still are what they would be.
#[derive(Clone, Copy)]
pub(crate) struct Paid {
    pub(crate) lines: u32,
    pub(crate) fresh: u32,
}

/// No line is paid.
pub(crate) const NONE_PAID: Paid = Paid { lines: 0, fresh: 0 };

impl Paid {
    ghost use Rattle.std.specs.Prelude.{◌≡◌, ℕ, ◌≤◌, List};
    ghost use Rattle.gba_mem.specs.Memories.{Memories};
    ghost use Rattle.gba_ppu_reg.specs.Registers.{Picture};
    ghost use Rattle.gba_screen.specs.Paying.{AreFresh};

    /// The lines of the next frame: those of a whole frame that is paid may stay, and of any other none does.
    #[tactic(auto, using(crate::proofs::Shown::fresh_round))]
    pub(crate) fn of_next_frame(self) -> Paid
        requires paid { self.lines ≤ 160 }
        requires most { self.fresh ≤ 160 }
        ensures lines { result.lines ≡ 0 }
        ensures fresh { (lines : List (List ℕ)) (keys : List Picture) (m : Memories)
            → AreFresh lines keys m self.lines self.fresh → AreFresh lines keys m 0 result.fresh }
        ensures most { result.fresh ≤ 160 }
        ensures kept { 160 ≤ self.lines → result.fresh ≡ self.fresh }
    {
        if self.lines < 160 {
            return NONE_PAID;
        }
        Paid {
            lines: 0,
            fresh: self.fresh,
        }
    }
}

/// Pays the next line, and answers how many are fresh then. One that is fresh is not drawn again.
fn pay_line(
    memory: &Memory,
    keys: &[PictureRegisters],
    lines: &mut [[u8; 480]],
    line: u32,
    fresh: u32,
) -> u32
    requires line { line < 160 }
    requires keys { length keys.now ≡ 160 }
    requires lines { length lines.old ≡ 160 }
    requires fresh { AreFresh lines.old keys.now memory.now line fresh }
    requires most { fresh ≤ 160 }
    ensures lines { lines.new ≡ slice_set lines.old line (owed_line keys.now memory.now line) }
    ensures fresh { AreFresh lines.new keys.now memory.now (line + 1) result }
    ensures most { result ≤ 160 }
{
    if fresh == 160 {
        return 160;
    }
    draw(
        &keys[line as usize],
        memory,
        line,
        &mut lines[line as usize],
    );
    fresh + 1
}

/// Pays the lines that are drawn, and answers how many are fresh then.
#[inline(never)]
pub(crate) fn pay(
    memory: &Memory,
    keys: &[PictureRegisters],
    lines: &mut [[u8; 480]],
    paid: Paid,
    drawn: u32,
) -> u32
    requires drawn { drawn ≤ 160 }
    requires paid { paid.lines ≤ drawn }
    requires keys { length keys.now ≡ 160 }
    requires lines { length lines.old ≡ 160 }
    requires fresh { AreFresh lines.old keys.now memory.now paid.lines paid.fresh }
    requires most { paid.fresh ≤ 160 }
    ensures shown { (y : ℕ) → y < drawn → slice_index_or lines.new y []
        ≡ shown_line lines.old keys.now memory.now paid.lines y }
    ensures fresh { AreFresh lines.new keys.now memory.now drawn result }
    ensures most { result ≤ 160 }
{
    let mut fresh = paid.fresh;
    for line in paid.lines..drawn {
        fresh = pay_line(memory, keys, lines, line, fresh);
    }
    fresh
}

/// Pays the lines that are drawn before what they were drawn of changes. None is fresh then.
pub(crate) fn settle(
    memory: &Memory,
    keys: &[PictureRegisters],
    lines: &mut [[u8; 480]],
    paid: Paid,
    drawn: u32,
) -> Paid
    requires drawn { drawn ≤ 160 }
    requires paid { paid.lines ≤ drawn }
    requires keys { length keys.now ≡ 160 }
    requires lines { length lines.old ≡ 160 }
    requires fresh { AreFresh lines.old keys.now memory.now paid.lines paid.fresh }
    requires most { paid.fresh ≤ 160 }
    ensures shown { (y : ℕ) → y < drawn → slice_index_or lines.new y []
        ≡ shown_line lines.old keys.now memory.now paid.lines y }
    ensures lines { result.lines ≡ drawn }
    ensures none { result.fresh ≡ 0 }
{
    pay(memory, keys, lines, paid, drawn);
    Paid {
        lines: drawn,
        fresh: 0,
    }
}

/// Whether these registers are the key of a line.
fn is_key(keys: &[PictureRegisters], line: u32, key: &PictureRegisters) -> bool
    requires { line < length keys.now }
    ensures { IsTrue result ↔ (slice_index_or keys.now line picture_at_reset ≡ key.now) }
{
    keys[line as usize] == *key
}

/// Pays the lines that are drawn where the next one is fresh and its key isn't this one, and answers how far they are
/// paid then: where the next line is still fresh, this is its key.
pub(crate) fn pay_before(
    memory: &Memory,
    keys: &[PictureRegisters],
    lines: &mut [[u8; 480]],
    paid: Paid,
    drawn: u32,
    key: &PictureRegisters,
) -> Paid
    requires drawn { drawn < 160 }
    requires paid { paid.lines ≤ drawn }
    requires keys { length keys.now ≡ 160 }
    requires lines { length lines.old ≡ 160 }
    requires fresh { AreFresh lines.old keys.now memory.now paid.lines paid.fresh }
    requires most { paid.fresh ≤ 160 }
    ensures shown { (y : ℕ) → y < drawn → shown_line lines.new keys.now memory.now result.lines y
        ≡ shown_line lines.old keys.now memory.now paid.lines y }
    ensures fresh { AreFresh lines.new keys.now memory.now result.lines result.fresh }
    ensures most { result.fresh ≤ 160 }
    ensures paid { result.lines ≤ drawn }
    ensures stays { result.lines + 159 < result.fresh + drawn
        → slice_index_or keys.now drawn picture_at_reset ≡ key.now }
{
    if paid.lines + 159 < paid.fresh + drawn && !is_key(keys, drawn, key) {
        let fresh = pay(memory, keys, lines, paid, drawn);
        return Paid {
            lines: drawn,
            fresh: fresh.min(159),
        };
    }
    paid
}
