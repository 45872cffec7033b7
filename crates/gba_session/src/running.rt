//! A segment of a run: the consoles forget what the last one made, run, and give what they made.

ghost use Rattle.std.specs.Prelude.{◌≡◌, ◌+◌, ◌<◌, ◌≤◌, ◌^◌, length, map, get_or};
ghost use Rattle.std.specs.List.{All};
ghost use Rattle.gba_console.specs.Machine.{Machine, clock_of, forgotten, limit_of, without_limit};
ghost use Rattle.gba_console.specs.Segments.{forgotten_cut};
ghost use Rattle.gba_session.specs.Held.{HasRoom, HasTaken, HaveTaken};
ghost use Rattle.gba_session.specs.Session.{later_end as end_after, segment_begin as segment_begin_of};
ghost use Rattle.gba_session.specs.Start.{run_until};
ghost use Rattle.link_order.specs.Cut.{plain_cut};

use crate::player::Player;
use gba_console::Console;
use gba_console::laws::{enough, forgets, reaches, steps_pass};
use gba_store::Gate;
use link_core::Cut;
use link_run::run_to;
use std::alloc::Global;
use std::thread::{Threads, for_each_mut};

/// The most cycles of a segment.
const SEGMENT: u64 = 16_777_216;

/// So many transfers are worth a thread's start: their lines take some milliseconds.
const MANY_TRANSFERS: usize = 1 << 14;

/// The end of the segment that begins at a clock: the next multiple of 2^24 cycles, or `until` where that comes first.
pub fn later_end(until: u64, clock: u64) -> u64
    requires most { until ≤ 2 ^ 39 }
    requires within { clock ≤ until }
    ensures { result ≡ end_after until clock }
{
    until.min((clock / SEGMENT + 1) * SEGMENT)
}

/// The clock at which the segment begins in which a clock is, or the last segment where the clock has come to the end.
pub(crate) fn segment_begin(until: u64, clock: u64) -> u64
    requires { 1 ≤ until }
    ensures { result ≡ segment_begin_of until clock }
{
    clock.min(until - 1) / SEGMENT * SEGMENT
}

/// The end of the room of a console in a segment that ends at `until`. One that is far ahead makes no step in it: its
/// room ends 511 cycles before its clock.
fn room_end(console: &Console, until: u64) -> u64
    requires most { until ≤ 2 ^ 39 }
    requires near { until ≤ clock_of console.now + 16777216 }
    ensures reach { until ≤ result }
    ensures most { result ≤ 2 ^ 39 }
    ensures later { clock_of console.now ≤ result + 511 }
    ensures near { result ≤ clock_of console.now + 16777216 }
{
    until.max(console.clock().saturating_sub(511))
}

/// Empties the lists of consoles, which have room up to `until` at least from then on.
fn forget_each(consoles: &mut Vec<Console>, until: u64)
    requires most { until ≤ 2 ^ 39 }
    requires near { All (λ (m : Machine). until ≤ clock_of m + 16777216) consoles.old.items }
    ensures plain { map without_limit consoles.new.items ≡ map forgotten (map without_limit consoles.old.items) }
    ensures limits { All (λ limit. until ≤ limit) (map limit_of consoles.new.items) }
{
    for player in 0..consoles.len() {
        let console = &mut consoles[player];
        let end = room_end(console, until);
        console.forget(end);
    }
}

/// Empties the lists of the consoles of a cut, which have room up to `until` at least from then on.
pub fn forget_all(cut: Cut<Console>, until: u64) -> Cut<Console>
    requires most { until ≤ 2 ^ 39 }
    requires near { All (λ (m : Machine). until ≤ clock_of m + 16777216) cut.consoles }
    ensures plain { plain_cut without_limit result ≡ forgotten_cut (plain_cut without_limit cut) }
    ensures limits { All (λ limit. until ≤ limit) (map limit_of result.consoles) }
{
    forgets();
    let (mut consoles, shell) = cut.part();
    forget_each(&mut consoles, until);
    shell.join(consoles)
}

/// Runs a console that is alone on its cable by itself: nothing is ever due to it.
fn run_alone(cut: Cut<Console>, until: u64) -> Cut<Console>
    requires one { length cut.consoles ≡ 1 }
    requires limit { All (λ limit. until ≤ limit) (map limit_of cut.consoles) }
    ensures run { plain_cut without_limit result ≡ run_until until (plain_cut without_limit cut) }
    ensures done { All (λ (m : Machine). until ≤ clock_of m) result.consoles }
{
    steps_pass();
    enough();
    reaches();
    let (mut consoles, mut shell) = cut.part();
    consoles[0].run_to(until);
    shell.clear();
    shell.join(consoles)
}

/// Runs the consoles of a cable until the clock of each is at least `until`, several side by side on threads.
fn run_cut<R: Threads + Sync, G: Gate + Sync>(
    rt: &R,
    alloc: Global,
    cut: Cut<Console>,
    gate: &G,
    until: u64,
) -> Cut<Console>
    requires limit { All (λ limit. until ≤ limit) (map limit_of cut.consoles) }
    ensures run { plain_cut without_limit result ≡ run_until until (plain_cut without_limit cut) }
    ensures done { All (λ (m : Machine). until ≤ clock_of m) result.consoles }
{
    if cut.nodes().len() == 1 {
        return run_alone(cut, until);
    }
    run_to(rt, alloc, cut, gate, until)
}

/// Empties the lists of the consoles of a cut and runs them until the clock of each is at least `until`.
pub(crate) fn run_segment<R: Threads + Sync, G: Gate + Sync>(
    rt: &R,
    alloc: Global,
    cut: Cut<Console>,
    gate: &G,
    until: u64,
) -> Cut<Console>
    requires most { until ≤ 2 ^ 39 }
    requires near { All (λ (m : Machine). until ≤ clock_of m + 16777216) cut.consoles }
    ensures run { plain_cut without_limit result ≡ run_until until (forgotten_cut (plain_cut without_limit cut)) }
    ensures done { All (λ (m : Machine). until ≤ clock_of m) result.consoles }
{
    run_cut(rt, alloc, forget_all(cut, until), gate, until)
}

/// Takes the pieces of a segment from the consoles, one after another.
fn take_in_turn(players: &mut Vec<Player>, consoles: &[Console], over: bool)
    requires many { length players.old.items ≡ length consoles.now }
    requires rooms { All HasRoom players.old.items }
    ensures { HaveTaken over players.old.items consoles.now players.new.items }
{
    for player in 0..players.len() {
        players[player].take(&consoles[player], over);
    }
}

/// The same, each on a thread of its own.
fn take_side_by_side<R: Threads + Sync>(
    rt: &R,
    players: &mut [Player],
    consoles: &[Console],
    over: bool,
)
    requires many { length players.old ≡ length consoles.now }
    requires rooms { All HasRoom players.old }
    ensures { HaveTaken over players.old consoles.now players.new }
{
    for_each_mut(
        rt,
        players,
        4,
        &|index: usize, player: &mut Player|
            requires { (index < length consoles.now) × HasRoom player.now }
            ensures { (m : Machine) →
                HasTaken over player.entry.now (get_or consoles.entry.now index m) player.exit.now }
        { player.take(&consoles[index], over) },
    );
}

/// Whether so much is to be written for a player that it's worth a thread's start: many lines of words, or a state.
fn has_much(player: &Player, console: &Console, over: bool) -> bool {
    let words = player.asks.words && console.words().len() >= MANY_TRANSFERS;
    words || over && player.asks.state
}

/// Takes the pieces of a segment from the consoles, and state and save where the run is over. Where much is to be
/// written, and the gate has room for the consoles side by side, each is taken on a thread of its own.
pub(crate) fn take_pieces<R: Threads + Sync, G: Gate>(
    rt: &R,
    gate: &G,
    players: &mut Vec<Player>,
    consoles: &[Console],
    over: bool,
)
    requires many { length players.old.items ≡ length consoles.now }
    requires rooms { All HasRoom players.old.items }
    ensures { HaveTaken over players.old.items consoles.now players.new.items }
{
    if players.len() > 1
        && players
            .iter()
            .zip(consoles)
            .any(|(player, console)| has_much(player, console, over))
        && gate.has_room(players.len())
    {
        take_side_by_side(rt, players.as_mut_slice(), consoles, over);
    } else {
        take_in_turn(players, consoles, over);
    }
}
