//! Quiet cycles and skips beside the plain ones of [`crate::plainly`], at states as if by chance.

use crate::plainly::{Chance, PlainTimer, cycle, cycles_before, cycles_before_events, next_place};
use gba_ppu_reg::Position;
use gba_sound::Queues;
use gba_timer::{Timer, Timers};
use std::process::Abort;
use std::test::Fail;

/// The same timers twice.
#[derive(Drop)]
struct Pair {
    timers: Timers,
    plain: [PlainTimer; 4],
}

const STOPPED: PlainTimer = PlainTimer {
    counter: 0,
    reload: 0,
    control: 0,
    phase: 0,
};

/// Writes a timer's control at its offset: its prescaler, whether it counts the timer below, and whether it runs. Timer
/// 0 counts none below.
fn write_control(timers: &mut Timers, plain: &mut PlainTimer, offset: u32, chance: &mut Chance) {
    let cascade = if offset == 0x102 || chance.below(3) < 2 {
        0
    } else {
        4
    };
    let running = if chance.below(8) == 0 { 0 } else { 0x80 };
    let value = chance.below(4) | cascade | running;
    plain.write_control(value);
    timers.write(offset, (value & 0xFFFF) as u16);
}

/// Writes a timer's reload at its offset: a number that is near its overflow.
fn write_reload(timers: &mut Timers, plain: &mut PlainTimer, offset: u32, chance: &mut Chance) {
    let far = if chance.below(2) == 0 { 3 } else { 60 };
    let value = 0xFFFF_u32.saturating_sub(chance.below(far));
    plain.reload = value;
    timers.write(offset, (value & 0xFFFF) as u16);
}

/// A timer is the plain one.
fn check_timer<R: Abort>(rt: &R, timer: Timer, plain: &PlainTimer) {
    assert_eq!(rt; u32::from(timer.counter), plain.counter);
    assert_eq!(rt; u32::from(timer.reload), plain.reload);
    assert_eq!(rt; u32::from(timer.control), plain.control);
    assert_eq!(rt; u32::from(timer.phase), plain.phase);
}

impl Pair {
    fn new() -> Pair {
        Pair {
            timers: Timers::new(),
            plain: [STOPPED; 4],
        }
    }

    fn control(&mut self, chance: &mut Chance) {
        write_control(&mut self.timers, &mut self.plain[0], 0x102, chance);
        write_control(&mut self.timers, &mut self.plain[1], 0x106, chance);
        write_control(&mut self.timers, &mut self.plain[2], 0x10A, chance);
        write_control(&mut self.timers, &mut self.plain[3], 0x10E, chance);
    }

    fn reload(&mut self, chance: &mut Chance) {
        write_reload(&mut self.timers, &mut self.plain[0], 0x100, chance);
        write_reload(&mut self.timers, &mut self.plain[1], 0x104, chance);
        write_reload(&mut self.timers, &mut self.plain[2], 0x108, chance);
        write_reload(&mut self.timers, &mut self.plain[3], 0x10C, chance);
    }

    /// Moves both by a cycle.
    fn cycle<R: Abort>(&mut self, rt: &R) {
        assert_eq!(rt; self.timers.cycle(), cycle(&mut self.plain));
    }

    fn check_timers<R: Abort>(&self, rt: &R) {
        check_timer(rt, self.timers.timer(0), &self.plain[0]);
        check_timer(rt, self.timers.timer(1), &self.plain[1]);
        check_timer(rt, self.timers.timer(2), &self.plain[2]);
        check_timer(rt, self.timers.timer(3), &self.plain[3]);
    }

    /// Each count of quiet cycles is that of the plain ones.
    fn check_quiet<R: Abort>(&self, rt: &R, queues: &Queues, control: u32) {
        assert_eq!(rt; self.timers.quiet(), cycles_before(&self.plain, 15));
        assert_eq!(rt; self.timers.quiet_of(0), cycles_before(&self.plain, 1));
        assert_eq!(rt; self.timers.quiet_of(1), cycles_before(&self.plain, 2));
        assert_eq!(rt; self.timers.quiet_of(2), cycles_before(&self.plain, 4));
        assert_eq!(rt; self.timers.quiet_of(3), cycles_before(&self.plain, 8));
        let chosen_by_a = if control & 0x0400 == 0 { 1 } else { 2 };
        let chosen_by_b = if control & 0x4000 == 0 { 1 } else { 2 };
        assert_eq!(rt;
            queues.quiet(&self.timers),
            cycles_before(&self.plain, chosen_by_a | chosen_by_b)
        );
    }

    /// Skips some of the quiet cycles.
    fn skip<R: Abort>(&mut self, rt: &R, chance: &mut Chance) {
        let quiet = self.timers.quiet();
        let count = chance.below(quiet + 1);
        assert!(rt; count <= quiet);
        self.timers.skip(count);
        for _ in 0..count {
            assert_eq!(rt; cycle(&mut self.plain), 0);
        }
    }
}

/// Skips quiet cycles of the queues, which hold what they held.
fn skip_queues<R: Abort>(rt: &R, queues: &mut Queues, timers: &Timers, chance: &mut Chance) {
    let quiet = queues.quiet(timers);
    let count = chance.below(quiet + 1);
    assert!(rt; count <= quiet);
    let held = queues.held(0).len();
    queues.skip(count, timers);
    assert_eq!(rt; queues.held(0).len(), held);
}

#[test]
fn quiet_timers_are_those_of_plain_cycles(rt: HostRuntime) -> Result<(), Fail> {
    let mut chance = Chance { state: 14 };
    let mut queues = Queues::new();
    assert!(rt; queues.push_word(0, 0x4433_2211));
    let mut pair = Pair::new();
    for _ in 0..600 {
        pair.reload(&mut chance);
        pair.control(&mut chance);
        for _ in 0..chance.below(200) {
            pair.cycle(&rt);
        }
        pair.control(&mut chance);
        let control = chance.below(0x8000) & 0x4400;
        queues.write(0x082, control as u16);
        pair.check_quiet(&rt, &queues, control);
        skip_queues(&rt, &mut queues, &pair.timers, &mut chance);
        pair.skip(&rt, &mut chance);
        pair.check_timers(&rt);
    }
    Ok(())
}

fn check_place<R: Abort>(rt: &R, line: u32, dot: u32, count: u32) {
    let mut position = Position { line, dot };
    assert!(rt; position.line < 228);
    assert!(rt; position.dot < 1232);
    let quiet = position.quiet();
    assert_eq!(rt; quiet, cycles_before_events((line, dot)));
    assert!(rt; count <= quiet);
    position.skip(count);
    let mut plain = (line, dot);
    for _ in 0..count {
        plain = next_place(plain);
    }
    assert_eq!(rt; (position.line, position.dot), plain);
}

#[test]
fn quiet_places_are_those_of_plain_cycles(rt: HostRuntime) -> Result<(), Fail> {
    let mut chance = Chance { state: 41 };
    for dot in 0..1232 {
        let line = chance.below(228);
        check_place(
            &rt,
            line,
            dot,
            chance.below(cycles_before_events((line, dot)).saturating_add(1)),
        );
    }
    Ok(())
}
