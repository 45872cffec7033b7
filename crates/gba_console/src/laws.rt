//! Laws over the definitions. Each is the contract of a function that takes no value.

ghost use Rattle.std.specs.Prelude.{◌≡◌, ℕ, List, Option};
ghost use Rattle.link_node.specs.declared.signal.Incoming.{Incoming};
ghost use Rattle.gba_agreement.specs.Agreement.{AgreesMulti, AgreesNormal};
ghost use Rattle.gba_agreement.specs.UnitView.{HasUnit};
ghost use Rattle.gba_console.specs.Alone.{RunsAlone, console_kind};
ghost use Rattle.gba_console.specs.Counted.{CountsAlways};
ghost use Rattle.gba_console.specs.Linked.{RecordsEnds, StartsLinked, console_view};
ghost use Rattle.gba_console.specs.Machine.{Machine, forgotten};
ghost use Rattle.gba_console.specs.Passing.{ActsPass};
ghost use Rattle.gba_console.specs.Pouring.{PoursAgain};
ghost use Rattle.gba_console.specs.Run.{IsEnough, Reaches, StepPasses};
ghost use Rattle.gba_console.specs.Segments.{ForgetsSoundly, LiveSegments, Segments, behind, behind_if};
ghost use Rattle.gba_console.specs.Shorn.{TellsAlike, shorn};
ghost use Rattle.link_mapped.specs.Mapped.{IsUnseen};
ghost use Rattle.link_order.specs.Cut.{Cut};

use crate::Console;
use gba_agreement::{multi as units_agree_in_multi, normal as units_agree_in_normal};
use gba_arm_exec::laws::{cycles_of_a_word, words_keep};
use gba_devices::laws::cycle_keeps;
use gba_io::Core;
use gba_io::laws::{board_passes, writes_keep_ends, writes_keep_time};
use gba_serial::laws::tells_once;
use gba_thumb_exec::laws::{cycles_of_a_halfword, halfwords_keep};
use link_laws::split;
use link_mapped::{alike, maps, parts};

/// What a step does before its devices move takes from 1 to 512 cycles, leaves the clock and the picture's
/// place, and brings no near end.
pub(crate) fn acts_pass()
    ensures { ActsPass }
{
    cycles_of_a_word::<Core>();
    cycles_of_a_halfword::<Core>();
    words_keep::<Core>();
    halfwords_keep::<Core>();
    writes_keep_time();
    writes_keep_ends();
}

/// Each step raises the clock by 1 to 512 cycles, whatever the console's numbers are and whatever it takes, keeps its
/// own start, and leaves the end of its room and the clock below which it is off.
pub fn steps_pass()
    ensures { (dues : List Incoming) (m : Machine) → StepPasses dues m }
{
    acts_pass();
    tells_once();
    board_passes();
}

/// A run ends with a clock at or past its end: the bound on its steps cuts none off.
pub fn reaches()
    ensures { Reaches }
{
    steps_pass();
}

/// Any two bounds on the steps of a run that are enough give the same run.
pub fn enough()
    ensures { IsEnough }
{
    steps_pass();
}

/// The global order's run of a console alone is its own run.
pub fn runs_alone()
    ensures { RunsAlone }
{
    enough();
}

/// Each step does to the serial unit what the laws on transfers ask of it: where the console is on, the unit hears what
/// is due, is written some times, and tells; where it is off, the unit learns modes of its peers and tells nothing.
pub fn has_unit()
    ensures { HasUnit console_kind console_view }
{
    board_passes();
    steps_pass();
}

/// What the laws on transfers call recorded in a step is what the console counts, and keeps where it is asked for.
pub fn records_ends()
    ensures { RecordsEnds }
{
    board_passes();
}

/// What a console keeps is what it counts: where whole frames are kept, 76,800 bytes for each, where pairs of samples
/// are, 4 for each, and where transfers are, each of them. So it is at reset, and so it stays in each step; and no step
/// changes what is kept.
pub fn counts_what_it_keeps()
    ensures { CountsAlways }
{
    acts_pass();
    board_passes();
    cycle_keeps();
}

/// Consoles at reset, each in its place on a cable and with nothing sent, are a cut from which the laws on
/// transfers speak.
pub fn starts_linked()
    ensures { StartsLinked }
{}

/// No way from player 0 is shorter over another console. Player 0 starts a Multi transfer, and every other console
/// is in Multi and idle when it takes the start: all that reach the end record the same end, the same four words
/// and no error.
pub fn multi()
    ensures { AgreesMulti console_kind console_view }
{
    has_unit();
    units_agree_in_multi::<Console>();
}

/// Player 0 or 1 starts a Normal transfer that the other one answers: both record the same end, and each the
/// other's word.
pub fn normal()
    ensures { AgreesNormal console_kind console_view }
{
    has_unit();
    units_agree_in_normal::<Console>();
}

/// No step sees the lists that a console keeps. A cut with emptied lists is sound where the cut is, and has the same
/// live signals; and what was emptied, put in front again, makes the console again.
pub fn forgets()
    ensures unseen { (firsts : ℕ → Option Machine) → IsUnseen console_kind (λ i. behind_if (firsts i)) (λ i m. m) }
    ensures again { (m : Machine) → behind m (forgotten m) ≡ m }
    ensures soundly { (cut : Cut Machine) → ForgetsSoundly cut }
{
    alike::<Console>();
}

/// No step sees the lists that a console keeps, where they begin, the end of their room, what the last step did, nor
/// what a step resets at its start: consoles that differ in nothing else have the same clock and began their last step
/// at the same one, and those that take the same signals tell the same, and differ in nothing else again; and their
/// steps do the same.
pub fn shorn_unseen()
    ensures unseen { IsUnseen console_kind (λ i. shorn) (λ i. shorn) }
    ensures tells { TellsAlike }
{}

/// The parts and the lines of a console, poured into one with the same memories, key changes and clock to be off below
/// that keeps the same lists, make it again, but for what no step sees.
pub fn pours_again()
    ensures { PoursAgain }
{}

/// A run in two segments, between which the lists are emptied, is the whole run: but for the lists, and each list of
/// the whole run is that of the first segment followed by that of the second.
pub fn segments()
    ensures all { Segments }
    ensures live { LiveSegments }
{
    split::<Console>();
    maps::<Console>();
    alike::<Console>();
    parts::<Console>();
}
