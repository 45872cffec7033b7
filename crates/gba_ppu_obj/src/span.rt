//! Which part of a box is on the line.

ghost use Rattle.std.specs.Prelude.{◌≡◌, ℕ, ◌+◌, ◌-◌, ◌<◌, ◌≤◌};
ghost use Rattle.gba_ppu_obj.specs.Places.{box_column};

/// The dots of a line that a box covers, from `start` up to `end`, and the box's column at `start`.
#[derive(Clone, Copy, Debug, PartialEq, Eq)]
pub struct Span {
    pub start: usize,
    pub end: usize,
    pub first: u32,
}

/// The span of a box of a width whose left edge is at a column.
pub fn span_of(left: u32, width: u32) -> Span
    requires left { left < 512 }
    requires width { width ≤ 128 }
    ensures order { result.start ≤ result.end }
    ensures end { result.end ≤ 240 }
    ensures inside { (x : ℕ) → result.start ≤ x → x < result.end
        → box_column left x ≡ result.first + (x - result.start) }
    ensures within { result.first + (result.end - result.start) ≤ width }
    ensures before { (x : ℕ) → x < result.start → width ≤ box_column left x }
    ensures after { (x : ℕ) → x < 240 → result.end ≤ x → width ≤ box_column left x }
{
    if left < 240 {
        Span {
            start: left as usize,
            end: (left + width).min(240) as usize,
            first: 0,
        }
    } else if left + width > 512 {
        Span {
            start: 0,
            end: (left + width - 512) as usize,
            first: 512 - left,
        }
    } else {
        Span {
            start: 0,
            end: 0,
            first: 0,
        }
    }
}
