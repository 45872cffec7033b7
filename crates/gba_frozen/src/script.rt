//! A frozen file, line by line.

ghost use Rattle.std.specs.Prelude.{◌≡◌, ◌+◌, ◌^◌, ◌<◌, ◌≤◌, [], ◌∷◌, length, true, option_map, OnErr};
ghost use Rattle.gba_text.specs.Answers.{Takes};
ghost use Rattle.gba_frozen.specs.Places.{first_place, is_place};
ghost use Rattle.gba_frozen.specs.Reading.{after_said as after_said_of, fed_lines, is_past, read_at, said_at as said_at_of, without_feed as without_feed_of};
ghost use Rattle.gba_frozen.specs.Views.{said_value};

use crate::kinds::{Setup, ThawKind};
use crate::lines::{FrozenLine, read_line};
use crate::places::{FIRST_PLACE, Place, Slot, next_place, place_for};

/// A line without its line feed, if it has one.
#[tactic(auto, unfolding(crate::specs::Reading::without_feed))]
fn without_feed(line: &[u8]) -> Option<&[u8]>
    ensures { option_map (λ l. l.now) result ≡ without_feed_of line.now }
{
    if line.is_empty() {
        return None;
    }
    let last = line.len() - 1;
    if line[last] != b'\n' {
        return None;
    }
    Some(&line[..last])
}

/// Where a file is read on behind a line.
#[tactic(auto, unfolding(crate::specs::Reading::after_said, crate::specs::Places::is_slot))]
fn after_said(setup: &Setup, at: Place, said: &FrozenLine) -> Place
    requires consoles { setup.now.consoles ≤ 4 }
    requires place { is_place at ≡ true }
    ensures value { result ≡ after_said_of setup.now at (said_value said.now) }
    ensures place { is_place result ≡ true }
{
    let player = at.player;
    match said {
        FrozenLine::Memory { place, bytes: _ } => Place {
            player,
            slot: Slot::Memory(Some(*place)),
        },
        FrozenLine::Drawn { line, colours: _ } => Place {
            player,
            slot: Slot::Drawn(Some(*line)),
        },
        FrozenLine::Live {
            sender: _,
            signal: _,
        } => Place {
            player,
            slot: Slot::Signals,
        },
        _ => next_place(setup, at),
    }
}

/// What a line with its line feed says that stands behind a place, and where the file is read on.
#[tactic(auto, unfolding(crate::specs::Reading::read_at))]
pub fn read_next(setup: &Setup, at: &mut Place, line: &[u8]) -> Result<FrozenLine, ThawKind>
    requires consoles { setup.now.consoles ≤ 4 }
    requires until { setup.now.until < 2 ^ 63 }
    requires place { is_place at.old ≡ true }
    ensures line { Takes said_value result at.new (read_at setup.now at.old line.now) }
    ensures refused { OnErr result (at.new ≡ at.old) }
    ensures place { is_place at.new ≡ true }
{
    let Some(line) = without_feed(line) else {
        return Err(ThawKind::Spelling);
    };
    let here = place_for(setup, line, *at);
    let said = read_line(setup, here, line)?;
    *at = after_said(setup, here, &said);
    Ok(said)
}

/// Whether the last line of a frozen file was read.
pub fn is_over(at: Place) -> bool
    ensures { result ≡ is_past at.slot }
{
    match at.slot {
        Slot::Past => true,
        _ => false,
    }
}
