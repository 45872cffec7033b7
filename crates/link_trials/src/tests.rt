//! Runs in the global order, beside a plain program that keeps every signal ever sent.

ghost use Rattle.std.specs.Prelude.{◌≡◌, All, IfOk};
ghost use Rattle.std.specs.Vec.{vec_len};
ghost use Rattle.link_node.specs.Delays.{AreDelays};

use crate::plain::{LIMIT, plain_run};
use crate::trial::{Trial, TrialShell, may_go};
use crate::{Beat, Mixer, begin, drawn, mixers};
use link_core::{Seen, Sent, laws};
use link_node::Delays;
use std::alloc::Global;
use std::fmt::Debug;
use std::process::Abort;
use std::test::Fail;

/// The clock at which a signal arrives at a player.
pub fn arrival(rt: &impl Abort, one: &Sent, player: usize, delays: &Delays) -> u64 {
    assert!(rt; one.sender < 4 && player < 4);
    let between = delays.rows[one.sender as usize][player];
    assert!(rt; one.signal.clock < 1 << 40 && between <= 1024);
    one.signal.clock + between
}

/// Whether some node but its sender can still take a signal.
pub fn is_live(rt: &impl Abort, nodes: &[Mixer], one: &Sent, delays: &Delays) -> bool {
    nodes.iter().enumerate().any(|(i, node)| i as u64 != u64::from(one.sender)
        && node.was < arrival(rt, one, i, delays))
}

/// Those of the signals that some node but their sender can still take.
pub fn still_live(
    rt: &impl Abort,
    alloc: Global,
    sent: &[Sent],
    nodes: &[Mixer],
    delays: &Delays,
) -> Result<Vec<Sent>, Fail> {
    let mut live = Vec::new(alloc);
    for one in sent {
        if is_live(rt, nodes, one, delays) {
            live.push(*one)?;
        }
    }
    Ok(live)
}

/// It is this.
pub fn is<T: Copy + PartialEq + Debug>(rt: &impl Abort, what: &str, got: T, wanted: T) {
    assert_eq!(rt; got, wanted, "{what}");
}

/// These are the signals.
pub fn are_signals(rt: &impl Abort, what: &str, got: &[Sent], wanted: &[Sent]) {
    assert_eq!(rt; got, wanted, "{what}");
}

/// These are the mixers.
fn are_mixers(rt: &impl Abort, what: &str, got: &[Mixer], wanted: &[Mixer]) {
    assert_eq!(rt; got, wanted, "{what}");
}

/// A run of so many mixers, in two parts.
fn run_in_parts(
    rt: &impl Abort,
    alloc: Global,
    count: usize,
    delays: Delays,
    seed: u64,
) -> Result<Trial, Fail>
    requires { AreDelays delays }
{
    let mut trial = Trial::of(rt, alloc, count, delays, seed)?;
    trial.run(rt, 9_000);
    trial.run(rt, 20_000);
    is(rt, "delays", trial.delays(), delays);
    Ok(trial)
}

/// A run of so many mixers, in two parts, beside that of the plain program. It answers how many signals are on their
/// way at its end.
fn compare(
    rt: &impl Abort,
    alloc: Global,
    count: usize,
    delays: Delays,
    seed: u64,
) -> Result<u64, Fail>
    requires { AreDelays delays }
{
    let mut plain = mixers(alloc, count, seed, LIMIT)?;
    let sent = plain_run(rt, alloc, &mut plain, &delays, 20_000)?.sent;
    let live = still_live(rt, alloc, &sent, &plain, &delays)?;
    let trial = run_in_parts(rt, alloc, count, delays, seed)?;
    are_mixers(rt, "mixers after a run", trial.nodes(), &plain);
    are_signals(rt, "signals after a run", trial.sent(), &live);
    let _ = trial.into_nodes();
    Ok(live.len() as u64)
}

/// Runs of so many mixers on several cables. It answers how many signals are on their way at the ends.
fn compare_all(rt: &impl Abort, alloc: Global, count: usize) -> Result<u64, Fail> {
    let mut told_at_all = 0u64;
    for (delay, seed) in [(1, 7), (16, 8), (512, 9), (1024, 10)] {
        let live = compare(rt, alloc, count, Delays::all(delay), seed)?;
        told_at_all = told_at_all.saturating_add(live);
    }
    for number in [0x0012, 0x4821, 0x5a3c, 0xfed7] {
        let live = compare(rt, alloc, count, drawn(number), number)?;
        told_at_all = told_at_all.saturating_add(live);
    }
    Ok(told_at_all)
}

#[test]
fn runs_are_those_of_the_plain_program(rt: HostRuntime) -> Result<(), Fail> {
    let mut told_at_all = 0u64;
    for count in 1..5 {
        let told = compare_all(&rt, rt.alloc(), count)?;
        told_at_all = told_at_all.saturating_add(told);
    }
    assert!(rt;
        told_at_all > 20,
        "some signals are on their way at the end"
    );
    Ok(())
}

/// A sender, a receiver, and the delay between them where 0 to 1 is long, which is bit 1, 1 to 0, bit 4, and 2
/// to 3, bit 11.
static HOPS: [(usize, usize, u64); 6] = [
    (0, 1, 1024),
    (1, 0, 1024),
    (2, 3, 1024),
    (3, 2, 1),
    (4, 0, 0),
    (0, 4, 0),
];

#[test]
fn drawn_delays_are_those_of_their_bits(rt: HostRuntime) {
    let delays = drawn(0x0812);
    for &(sender, receiver, delay) in &HOPS {
        is(
            &rt,
            "a delay",
            (sender, receiver, delays.hop(sender, receiver)),
            (sender, receiver, delay),
        );
    }
    is(&rt, "a row", delays.with(3, 2, 7).rows[3], [1, 1, 7, 1]);
    is(&rt, "no row", delays.with(4, 2, 7), delays);
}

/// A node that tells once, and one that listens.
fn beats(alloc: Global, first: u64) -> Result<Vec<Beat>, Fail>
    ensures { IfOk result (λ nodes. (vec_len nodes ≡ 2)
        × All (λ b. (b.clock ≡ 0) × (b.was ≡ 0) × (b.limit ≡ 4096)) nodes.items) }
{
    let teller = Beat {
        first: 99,
        pace: 99,
        tells: 100,
        heard: None,
        clock: 0,
        was: 0,
        limit: 4096,
    };
    let listener = Beat {
        first,
        pace: 280,
        tells: 1 << 40,
        heard: None,
        clock: 0,
        was: 0,
        limit: 4096,
    };
    Ok(vec![in alloc; teller, listener]?)
}

/// When the teller and the listener heard something, at a delay of 1,024, until 1,500.
fn heard(rt: &impl Abort, alloc: Global, first: u64) -> Result<(Option<u64>, Option<u64>), Fail> {
    let nodes = beats(alloc, first)?;
    let Ok(mut cut) = begin(alloc, nodes, Delays::all(1024)) else {
        panic!(rt; "no memory");
    };
    cut.run_serial(1500);
    let nodes = cut.into_nodes();
    let [teller, listener] = nodes.as_slice() else {
        panic!(rt; "two nodes");
    };
    Ok((teller.heard, listener.heard))
}

#[test]
fn a_signal_is_taken_at_its_arrival_and_not_before(rt: HostRuntime) -> Result<(), Fail> {
    // sent at 100, so it arrives at 1,124: steps at 0, 281, 562, 843, 1,124, and at 0, 280, 561, 842, 1,123, 1,404
    for (first, clock) in [(280, 1124), (279, 1404)] {
        let heard = heard(&rt, rt.alloc(), first)?;
        is(&rt, "heard", heard, (None, Some(clock)));
    }
    Ok(())
}

/// A console's clock, where its run ends, what it has seen of its peers, the delays from them, and whether it may step.
struct Question {
    clock: u64,
    until: u64,
    seen: &'static [Seen],
    delays: &'static [u64],
    may: bool,
}

/// One peer at delay 1; the end of the run; two peers; none; and each clock goes with the delay in its own place.
static QUESTIONS: [Question; 10] = [
    Question {
        clock: 0,
        until: 10,
        seen: &[Seen { clock: 0 }],
        delays: &[1],
        may: true,
    },
    Question {
        clock: 1,
        until: 10,
        seen: &[Seen { clock: 0 }],
        delays: &[1],
        may: false,
    },
    Question {
        clock: 1,
        until: 10,
        seen: &[Seen { clock: 1 }],
        delays: &[1],
        may: true,
    },
    Question {
        clock: 10,
        until: 10,
        seen: &[Seen { clock: 1000 }, Seen { clock: 1000 }],
        delays: &[1, 1],
        may: false,
    },
    Question {
        clock: 5,
        until: 10,
        seen: &[Seen { clock: 9 }, Seen { clock: 4 }],
        delays: &[1, 1],
        may: false,
    },
    Question {
        clock: 9,
        until: 10,
        seen: &[],
        delays: &[],
        may: true,
    },
    Question {
        clock: 1023,
        until: 4000,
        seen: &[Seen { clock: 0 }, Seen { clock: 1023 }],
        delays: &[1024, 1],
        may: true,
    },
    Question {
        clock: 1023,
        until: 4000,
        seen: &[Seen { clock: 0 }, Seen { clock: 1023 }],
        delays: &[1, 1024],
        may: false,
    },
    Question {
        clock: 1024,
        until: 4000,
        seen: &[Seen { clock: 0 }, Seen { clock: 1024 }],
        delays: &[1024, 1],
        may: false,
    },
    Question {
        clock: 1024,
        until: 4000,
        seen: &[Seen { clock: 1 }, Seen { clock: 1023 }],
        delays: &[1024, 1],
        may: false,
    },
];

fn answer(rt: &impl Abort, question: &Question) {
    let clock = question.clock;
    let may = may_go(rt, clock, question.until, question.seen, question.delays);
    assert!(rt; may == question.may, "at clock {clock}");
}

#[test]
fn a_step_is_allowed_below_each_seen_clock_and_the_delay(rt: HostRuntime) {
    for question in &QUESTIONS {
        answer(&rt, question);
    }
}

#[test]
fn the_laws_hold_of_a_mixer() {
    laws::start::<Mixer>();
    laws::split::<Mixer>();
    laws::equal::<Mixer>();
    laws::horizon::<Mixer>();
    laws::skew::<Mixer>();
    laws::unread::<Mixer>();
    laws::reached::<Mixer>();
    link_trace::way::<Mixer>();
    link_trace::turn::<Mixer>();
    link_trace::prefix::<Mixer>();
    link_trace::inbox();
    link_trace::gathering();
}

/// Adds each signal twice, the last one first.
fn add_twice(rt: &impl Abort, shell: &mut TrialShell, signals: &[Sent]) {
    for one in signals.iter().rev() {
        shell.add(rt, *one);
        shell.add(rt, *one);
    }
}

/// The least node is one with the least clock.
fn check_least(rt: &impl Abort, trial: &Trial) {
    let clocks = trial.nodes().iter().map(|node| node.clock).min();
    let least = trial.nodes().get(trial.least() as usize);
    is(rt, "the least clock", least.map(|node| node.clock), clocks);
}

/// A shell has these signals, loses them, and has them once where each is added twice.
fn is_shell(rt: &impl Abort, shell: &mut TrialShell, sent: &[Sent]) {
    is(rt, "delays of a shell", shell.delays(), drawn(0x1234));
    are_signals(rt, "signals of a shell", shell.sent(), sent);
    shell.clear();
    is(rt, "signals of a cleared shell", shell.sent().len(), 0);
    add_twice(rt, shell, sent);
    are_signals(rt, "signals that are added twice", shell.sent(), sent);
}

/// A cut of three nodes is taken apart.
fn is_parted(rt: &impl Abort, trial: Trial, sent: &[Sent]) {
    let (nodes, mut shell) = trial.part();
    is(rt, "parted nodes", nodes.len(), 3);
    is_shell(rt, &mut shell, sent);
}

#[test]
fn a_cut_is_parted_and_joined(rt: HostRuntime) -> Result<(), Fail> {
    let mut trial = Trial::of(&rt, rt.alloc(), 3, drawn(0x1234), 11)?;
    trial.run(&rt, 5_000);
    check_least(&rt, &trial);
    let sent = trial.sent().to_vec(rt.alloc())?;
    is(&rt, "no signals", sent.is_empty(), false);
    let trial = trial.put_together();
    are_signals(&rt, "joined signals", trial.sent(), &sent);
    is(&rt, "joined nodes", trial.nodes().len(), 3);
    is_parted(&rt, trial, &sent);
    Ok(())
}

/// A run makes these steps.
fn makes_steps(rt: &impl Abort, trial: &mut Trial, steps: &[(usize, Mixer)]) {
    for wanted in steps {
        let got = trial.step(rt);
        is(rt, "a step", got, *wanted);
    }
}

#[test]
fn steps_are_those_of_the_plain_program(rt: HostRuntime) -> Result<(), Fail> {
    let mut plain = mixers(rt.alloc(), 3, 5, LIMIT)?;
    let all = plain_run(&rt, rt.alloc(), &mut plain, &drawn(0x1a35), 5_000)?;
    assert!(rt; all.steps.len() > 60);
    let mut trial = Trial::of(&rt, rt.alloc(), 3, drawn(0x1a35), 5)?;
    makes_steps(&rt, &mut trial, &all.steps);
    Ok(())
}
