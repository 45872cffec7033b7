//! Random interleavings of looks and steps, from cuts with clocks apart and signals on their way, each console compared
//! with the one that `Cut` has in the global order after as many of its steps.

ghost use Rattle.link_node.specs.Delays.{AreDelays};
ghost use Rattle.link_node.specs.Due.{IsDue, InOrder};

use crate::plain::{LIMIT, taken};
use crate::tests::{are_signals, is, is_live};
use crate::trial::{Trial, TrialShell, may_go};
use crate::{Mixer, drawn, may_take};
use link_core::{Seen, Sent};
use link_node::{Delays, Incoming, Node, Signal};
use std::alloc::Global;
use std::process::Abort;
use std::test::Fail;

/// One console that steps by what it has seen: how many steps it has made, what it has sent and is known of at first,
/// and for each player the clock and the number of signals that it saw last.
#[derive(Drop)]
struct Console {
    node: Mixer,
    steps: usize,
    sent: Vec<Signal>,
    seen: Vec<Seen>,
    got: Vec<usize>,
}

/// The signals of one player.
fn sent_by(alloc: Global, sent: &[Sent], player: usize) -> Result<Vec<Signal>, Fail> {
    let mut own = Vec::new(alloc);
    for one in sent {
        if one.sender as usize == player {
            own.push(one.signal)?;
        }
    }
    Ok(own)
}

/// The consoles of a cut, which have all seen each other's clocks and signals.
fn consoles(alloc: Global, nodes: &[Mixer], sent: &[Sent]) -> Result<Vec<Console>, Fail> {
    let mut all = Vec::new(alloc);
    for (player, node) in nodes.iter().enumerate() {
        let mut seen = Vec::new(alloc);
        let mut got = Vec::new(alloc);
        for (peer, other) in nodes.iter().enumerate() {
            seen.push(Seen { clock: other.clock })?;
            got.push(sent_by(alloc, sent, peer)?.len())?;
        }
        all.push(Console {
            node: *node,
            steps: 0,
            sent: sent_by(alloc, sent, player)?,
            seen,
            got,
        })?;
    }
    Ok(all)
}

/// Adds what a console takes of the signals of a sender.
fn take_of(
    rt: &impl Abort,
    due: &mut Vec<Incoming>,
    sender: usize,
    signals: &[Signal],
    player: usize,
    node: &Mixer,
    delays: &Delays,
) -> Result<(), Fail> {
    assert!(rt; sender < 4);
    for signal in signals {
        let one = Sent {
            sender: sender as u32,
            signal: *signal,
        };
        if let Some(incoming) = taken(rt, &one, player, node, delays) {
            due.push(incoming)?;
        }
    }
    Ok(())
}

/// What a console takes of the signals that it has seen.
fn due_of(
    rt: &impl Abort,
    alloc: Global,
    all: &[Console],
    i: usize,
    delays: &Delays,
) -> Result<Vec<Incoming>, Fail> {
    let mut due = Vec::new(alloc);
    assert!(rt; i < all.len());
    let me = &all[i];
    for (j, peer) in all.iter().enumerate() {
        assert!(rt; j < me.got.len() && me.got[j] <= peer.sent.len());
        let seen = &peer.sent[..me.got[j]];
        take_of(rt, &mut due, j, seen, i, &me.node, delays)?;
    }
    due.sort_by_key(|one| (one.arrival, one.sender))?;
    Ok(due)
}

/// The clocks that console i has seen of its peers, and the delays from them.
fn peers(
    rt: &impl Abort,
    alloc: Global,
    seen: &[Seen],
    delays: &Delays,
    i: usize,
) -> Result<(Vec<Seen>, Vec<u64>), Fail> {
    let mut others = Vec::new(alloc);
    let mut hops = Vec::new(alloc);
    for (j, one) in seen.iter().enumerate() {
        assert!(rt; j < 4 && i < 4);
        if j != i {
            others.push(*one)?;
            hops.push(delays.rows[j][i])?;
        }
    }
    Ok((others, hops))
}

/// Console i looks at console j.
fn look(rt: &impl Abort, all: &mut [Console], i: usize, j: usize) {
    assert!(rt; i < all.len() && j < all.len());
    let clock = all[j].node.clock;
    let sent = all[j].sent.len();
    let me = &mut all[i];
    assert!(rt; j < me.seen.len() && j < me.got.len());
    me.seen[j] = Seen { clock };
    me.got[j] = sent;
}

/// A step of a node with what is due to it.
fn turn(rt: &impl Abort, node: &mut Mixer, due: &[Incoming]) -> Option<Signal> {
    assert!(rt; node.clock < node.limit);
    assert!(rt; may_take(due, node.was, node.clock));
    node.turn(due)
}

/// Console i steps, where it may. It answers whether it did.
fn step(
    rt: &impl Abort,
    alloc: Global,
    all: &mut [Console],
    i: usize,
    delays: &Delays,
    until: u64,
) -> Result<bool, Fail> {
    assert!(rt; i < all.len());
    let (others, hops) = peers(rt, alloc, &all[i].seen, delays, i)?;
    if !may_go(rt, all[i].node.clock, until, &others, &hops) {
        return Ok(false);
    }
    let due = due_of(rt, alloc, all, i, delays)?;
    let me = &mut all[i];
    if let Some(signal) = turn(rt, &mut me.node, &due) {
        me.sent.push(signal)?;
    }
    assert!(rt; me.steps < 100_000);
    me.steps += 1;
    Ok(true)
}

/// The next of a row of numbers that look random.
fn next_random(number: u64) -> u64 {
    number
        .wrapping_mul(6364136223846793005)
        .wrapping_add(1442695040888963407)
}

/// Where a play begins, and what `Cut` makes of it: each step of the global order by its player and the node after it,
/// and the signals that are live at the end.
#[derive(Drop)]
struct Play {
    nodes: Vec<Mixer>,
    sent: Vec<Sent>,
    delays: Delays,
    until: u64,
    steps: Vec<(usize, Mixer)>,
    last: Vec<Mixer>,
    left: Vec<Sent>,
    shell: TrialShell,
}

/// The steps of the global order until every clock is at least `until`.
fn steps_until(
    rt: &impl Abort,
    alloc: Global,
    trial: &mut Trial,
    until: u64,
) -> Result<Vec<(usize, Mixer)>, Fail> {
    let mut steps = Vec::new(alloc);
    for _ in 0..100_000 {
        if trial.least_clock() >= until {
            break;
        }
        steps.push(trial.step(rt))?;
    }
    Ok(steps)
}

/// A cut of so many mixers that has run to `first`, and its run from there to `until`.
fn make_play(
    rt: &impl Abort,
    alloc: Global,
    count: usize,
    delays: Delays,
    seed: u64,
    first: u64,
    until: u64,
) -> Result<Play, Fail>
    requires { AreDelays delays }
{
    assert!(rt; first <= LIMIT && until <= LIMIT);
    let mut trial = Trial::of(rt, alloc, count, delays, seed)?;
    trial.run(rt, first);
    let nodes = trial.nodes().to_vec(alloc)?;
    let sent = trial.sent().to_vec(alloc)?;
    let steps = steps_until(rt, alloc, &mut trial, until)?;
    let last = trial.nodes().to_vec(alloc)?;
    let left = trial.sent().to_vec(alloc)?;
    let (_, shell) = trial.part();
    Ok(Play {
        nodes,
        sent,
        delays,
        until,
        steps,
        last,
        left,
        shell,
    })
}

/// Console i is as `Cut` had it after as many of its steps.
fn check_step(rt: &impl Abort, play: &Play, console: &Console, i: usize) {
    assert!(rt; console.steps > 0);
    let wanted = play
        .steps
        .iter()
        .filter(|(player, _)| *player == i)
        .nth(console.steps - 1);
    is(
        rt,
        "a console",
        wanted.map(|(_, node)| *node),
        Some(console.node),
    );
}

/// Console i looks at console j or steps, and is compared with the one of `Cut` after a step. It answers whether
/// it made one.
fn act(
    rt: &impl Abort,
    alloc: Global,
    play: &Play,
    all: &mut [Console],
    number: u64,
) -> Result<bool, Fail> {
    let count = all.len() as u64;
    assert!(rt; count > 0);
    let i = ((number >> 33) % count) as usize;
    if (number >> 50) % 2 == 0 {
        look(rt, all, i, ((number >> 40) % count) as usize);
        return Ok(false);
    }
    if !step(rt, alloc, all, i, &play.delays, play.until)? {
        return Ok(false);
    }
    assert!(rt; i < all.len());
    check_step(rt, play, &all[i], i);
    Ok(true)
}

/// Plays so many looks and steps in an order that the seed gives, and compares each console after each of its steps
/// with the one that `Cut` had after as many. It answers how many steps were made.
fn play_some(
    rt: &impl Abort,
    alloc: Global,
    play: &Play,
    all: &mut [Console],
    seed: u64,
    actions: u64,
) -> Result<u64, Fail> {
    let mut number = seed;
    let mut made = 0u64;
    for _ in 0..actions {
        number = next_random(number);
        if act(rt, alloc, play, all, number)? {
            made = made.saturating_add(1);
        }
    }
    Ok(made)
}

/// What the plays of one cable have come to: steps, plays that begin with clocks apart, and signals that are on their
/// way when a play begins.
#[derive(Drop)]
struct Tally {
    made: u64,
    apart: u64,
    flying: u64,
}

/// Sixty plays from one beginning. It answers how many steps were made.
fn play_often(rt: &impl Abort, alloc: Global, play: &Play) -> Result<u64, Fail> {
    let mut all_made = 0u64;
    for seed in 0..60 {
        let mut all = consoles(alloc, &play.nodes, &play.sent)?;
        let made = play_some(rt, alloc, play, &mut all, seed, 400)?;
        all_made = all_made.saturating_add(made);
    }
    Ok(all_made)
}

/// Counts where a play begins, and its steps.
fn count(tally: &mut Tally, play: &Play, made: u64) {
    tally.made = tally.made.saturating_add(made);
    let clock = play.nodes.first().map_or(0, |node| node.clock);
    if play.nodes.iter().any(|node| node.clock != clock) {
        tally.apart = tally.apart.saturating_add(1);
    }
    tally.flying = tally.flying.saturating_add(play.sent.len() as u64);
}

/// Plays of so many mixers on one cable, from two beginnings.
fn play_all(
    rt: &impl Abort,
    alloc: Global,
    players: usize,
    delays: Delays,
    seed: u64,
    tally: &mut Tally,
) -> Result<(), Fail>
    requires { AreDelays delays }
{
    for first in [0, 777] {
        let play = make_play(rt, alloc, players, delays, seed, first, 3_000)?;
        let made = play_often(rt, alloc, &play)?;
        count(tally, &play, made);
    }
    Ok(())
}

/// Plays of so many mixers on cables with one delay, and on five that are drawn.
fn play_on_all(
    rt: &impl Abort,
    alloc: Global,
    players: usize,
    tally: &mut Tally,
) -> Result<(), Fail> {
    for delay in [1, 16, 512, 1024] {
        play_all(rt, alloc, players, Delays::all(delay), delay, tally)?;
    }
    let mut number = players as u64;
    for _ in 0..5 {
        number = next_random(number);
        play_all(rt, alloc, players, drawn(number >> 40), number, tally)?;
    }
    Ok(())
}

#[test]
fn random_interleavings_are_the_global_order(rt: HostRuntime) -> Result<(), Fail> {
    let mut tally = Tally {
        made: 0,
        apart: 0,
        flying: 0,
    };
    for players in 1..5 {
        play_on_all(&rt, rt.alloc(), players, &mut tally)?;
    }
    let Tally {
        made,
        apart,
        flying,
    } = tally;
    assert!(rt; made > 40_000, "{made} steps");
    assert!(rt; apart > 16, "{apart} begin with clocks apart");
    assert!(rt;
        flying > 40,
        "{flying} signals are on their way where plays begin"
    );
    Ok(())
}

/// The signals that some console can still take, player by player.
fn live_of(
    rt: &impl Abort,
    alloc: Global,
    all: &[Console],
    delays: &Delays,
) -> Result<Vec<Sent>, Fail> {
    let mut nodes = Vec::new(alloc);
    for console in all {
        nodes.push(console.node)?;
    }
    let mut live = Vec::new(alloc);
    for (player, console) in all.iter().enumerate() {
        assert!(rt; player < 4);
        for signal in &console.sent {
            let one = Sent {
                sender: player as u32,
                signal: *signal,
            };
            if is_live(rt, &nodes, &one, delays) {
                live.push(one)?;
            }
        }
    }
    Ok(live)
}

/// Gives a shell these signals alone, the last one first.
fn refill(rt: &impl Abort, shell: &mut TrialShell, signals: &[Sent]) {
    shell.clear();
    for one in signals.iter().rev() {
        shell.add(rt, *one);
    }
}

/// The consoles are these nodes.
fn are_last(rt: &impl Abort, all: &[Console], nodes: &[Mixer]) {
    for (console, node) in all.iter().zip(nodes.iter()) {
        is(rt, "a console at the end", console.node, *node);
    }
}

/// A play of many actions comes to the end, and its consoles and signals are the cut that the global order makes. It
/// answers how many signals are on their way there.
fn play_to_the_end(
    rt: &impl Abort,
    alloc: Global,
    count: usize,
    delays: Delays,
    seed: u64,
) -> Result<u64, Fail>
    requires { AreDelays delays }
{
    let mut play = make_play(rt, alloc, count, delays, seed, 777, 3_000)?;
    let mut all = consoles(alloc, &play.nodes, &play.sent)?;
    let made = play_some(rt, alloc, &play, &mut all, 5, 6_000)?;
    is(rt, "steps", made, play.steps.len() as u64);
    are_last(rt, &all, &play.last);
    let live = live_of(rt, alloc, &all, &delays)?;
    refill(rt, &mut play.shell, &live);
    are_signals(rt, "signals at the end", play.shell.sent(), &play.left);
    Ok(play.left.len() as u64)
}

#[test]
fn consoles_at_the_end_are_put_together_again(rt: HostRuntime) -> Result<(), Fail> {
    let mut left = 0u64;
    for (count, delay) in [(1, 40), (2, 512), (3, 1024), (4, 1000)] {
        left = left.saturating_add(play_to_the_end(
            &rt,
            rt.alloc(),
            count,
            Delays::all(delay),
            delay,
        )?);
    }
    for (count, number) in [(2, 0x0012), (2, 0x0002), (3, 0x0148), (4, 0x5a3c)] {
        left = left.saturating_add(play_to_the_end(&rt, rt.alloc(), count, drawn(number), number)?);
    }
    assert!(rt; left > 8, "some signals are on their way at the end");
    Ok(())
}
