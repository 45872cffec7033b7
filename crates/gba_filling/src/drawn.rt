//! The drawn lines of a console.

ghost use Rattle.std.specs.Prelude.{◌≡◌, ◌<◌, ◌≤◌, ◌*◌, ◌%◌, ◌++◌, IfOk, length};
ghost use Rattle.std.specs.List.{flat_map};
ghost use Rattle.gba_screen.specs.Lines.{colours_bytes};

use crate::lists::put_behind;
use std::alloc::{AllocError, Global};
use std::marker::Model;

/// The most lines that are kept of a frame.
const MOST_LINES: usize = 159;

/// How many colours a line has.
const COLOURS: usize = 240;

/// The bytes of a line's colours, the low one of each first.
fn bytes_of_line(colours: &[u16]) -> [u8; 480]
    requires { length colours.now ≡ 240 }
    ensures { result ≡ colours_bytes colours.now }
{
    let mut bytes = [0; 480];
    for (place, colour) in colours.iter().enumerate() {
        bytes[2 * place..2 * place + 2].copy_from_slice(&colour.to_le_bytes());
    }
    bytes
}

/// The drawn lines of the present frame, each as its bytes, from the top down; and whether one of them had another
/// number than the number of those before it, from which on no further line is kept.
#[derive(Drop)]
pub struct Drawn {
    lines: Vec<[u8; 480]>,
    has_gap: bool,
}

impl Model for Drawn {
    ghost use Rattle.std.specs.Prelude.{◌≤◌};
    ghost use Rattle.std.specs.Vec.{vec_capacity};
    ghost use Rattle.gba_filling.specs.Drawn.{DrawnLines};

    ghost Value = { DrawnLines };

    ghost view = { λ d. record { lines = d.lines.items; has_gap = d.has_gap } };

    ghost invariant = { λ d. 159 ≤ vec_capacity d.lines };
}

impl Drawn {
    ghost use Rattle.std.specs.Prelude.{ℕ, List, [], ◌∷◌};
    ghost use Rattle.gba_frozen.specs.Lines.{drawn_end};
    ghost use Rattle.gba_filling.specs.Drawn.{AreLines, lines_of};

    /// No line yet. It takes the memory of all that are kept.
    pub fn new(alloc: Global) -> Result<Drawn, AllocError>
        ensures { IfOk result (λ drawn. AreLines [] drawn) }
    {
        Ok(Drawn {
            lines: Vec::with_capacity(alloc, MOST_LINES)?,
            has_gap: false,
        })
    }

    /// One line more, of this number. It takes no memory.
    pub fn keep(&mut self, line: u32, colours: &[u16])
        requires line { line < drawn_end }
        requires colours { length colours.now ≡ 240 }
        ensures { (drawn : List (ℕ × List ℕ)) → AreLines drawn self.old
            → AreLines (drawn ++ (line, colours.now) ∷ []) self.new }
    {
        if self.has_gap {
            return;
        }
        if line as usize != self.lines.len() {
            self.has_gap = true;
            return;
        }
        put_behind(&mut self.lines, bytes_of_line(colours));
    }

    /// All lines at once in place of those so far, from the top down, 240 colours each. It takes no memory.
    pub fn set(&mut self, colours: &[u16])
        requires whole { length colours.now % 240 ≡ 0 }
        requires few { length colours.now ≤ 159 * 240 }
        ensures { self.new ≡ lines_of colours.now }
    {
        self.lines.clear();
        self.has_gap = false;
        for line in 0..colours.len() / COLOURS {
            let begin = COLOURS * line;
            put_behind(
                &mut self.lines,
                bytes_of_line(&colours[begin..begin + COLOURS]),
            );
        }
    }

    /// The lines, each as its 240 colours, the low byte of each first.
    pub fn lines(&self) -> &[[u8; 480]]
        ensures { result.now ≡ self.now.lines }
    {
        self.lines.as_slice()
    }

    /// Whether a line had another number than that of those before it.
    pub fn has_gap(&self) -> bool
        ensures { result ≡ self.now.has_gap }
    {
        self.has_gap
    }
}
