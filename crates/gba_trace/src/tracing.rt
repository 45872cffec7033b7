//! A stretch of the steps.

ghost use Rattle.std.specs.Prelude.{◌≡◌, ◌<◌, ◌≤◌, ◌^◌, IfOk};
ghost use Rattle.gba_trace.specs.Trace.{after_steps, count_from, lines_from, trace_count, trace_text};
ghost use Rattle.gba_trace.specs.Way.{HaveRoom, Machines, Shows};

use crate::way::Way;
use gba_console::Console;
use gba_console::laws::shorn_unseen;
use gba_terms::NoMemory;
use link_core::Cut;
use link_mapped::steps;
use std::alloc::Global;

/// The lines of a stretch of steps, one after another, and how many they are.
#[derive(Drop)]
pub struct Traced {
    pub text: Vec<u8>,
    pub lines: u64,
}

/// Makes so many steps, or all that begin below `until`.
fn skip(way: Way, count: u64, until: u64) -> Way
    requires most { until ≤ 2 ^ 39 }
    requires room { HaveRoom way.end way.cut }
    ensures room { HaveRoom result.end result.cut }
    ensures shows { (plain : Machines) → Shows plain way.cut → Shows (after_steps count until plain) result.cut }
{
    shorn_unseen();
    steps::<Console>();
    let mut way = way;
    'row: for _ in 0..count {
        if !way.goes_on(until) {
            return way;
        }
        way = way.with_room(until);
        way.step();
    }
    way
}

/// The lines of so many steps, or of all that begin below `until`.
fn tell(alloc: Global, way: Way, count: u64, until: u64) -> Result<Traced, NoMemory>
    requires most { until ≤ 2 ^ 39 }
    requires few { count ≤ 1000000 }
    requires room { HaveRoom way.end way.cut }
    ensures text { (plain : Machines) → Shows plain way.cut
        → IfOk result (λ traced. traced.text.items ≡ lines_from count until plain) }
    ensures lines { (plain : Machines) → Shows plain way.cut
        → IfOk result (λ traced. traced.lines ≡ count_from count until plain) }
{
    shorn_unseen();
    steps::<Console>();
    let mut way = way;
    let mut text = Vec::with_capacity(alloc, 400 * count as usize)?;
    let mut lines = 0;
    'row: for _ in 0..count {
        if !way.goes_on(until) {
            return Ok(Traced { text, lines });
        }
        way = way.with_room(until);
        way.step_told(alloc, &mut text)?;
        lines += 1;
    }
    Ok(Traced { text, lines })
}

/// The lines of `count` steps of the global order from step `first` on, counted from 0, at most a million, or of all
/// from there that begin below the clock `until`, of consoles that each have room up to the clock `end`. The text's
/// memory, 400 bytes a line, is asked for before the first step.
pub fn trace(
    alloc: Global,
    cut: Cut<Console>,
    end: u64,
    first: u64,
    count: u64,
    until: u64,
) -> Result<Traced, NoMemory>
    requires most { until ≤ 2 ^ 39 }
    requires few { count ≤ 1000000 }
    requires room { HaveRoom end cut }
    ensures text { (plain : Machines) → Shows plain cut
        → IfOk result (λ traced. traced.text.items ≡ trace_text first count until plain) }
    ensures lines { (plain : Machines) → Shows plain cut
        → IfOk result (λ traced. traced.lines ≡ trace_count first count until plain) }
{
    let way = skip(Way { cut, end }, first, until);
    tell(alloc, way, count, until)
}
