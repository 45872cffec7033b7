//! Two, three and four consoles by one thread, in several orders.

ghost use Rattle.std.specs.Prelude.{ℕ, ◌≡◌, ◌≢◌, ◌+◌, ◌<◌, ◌≤◌, ◌^◌, IfOk, length, All};
ghost use Rattle.std.specs.Vec.{vec_len};
ghost use Rattle.link_node.specs.Delays.{AreDelays};
ghost use Rattle.link_table_tests.specs.Following.{HaveOneLimit, AreSeated};

use crate::console::Console;
use crate::seated::{make_consoles, two_consoles};
use crate::ticker::Ticker;
use link_node::{Delays, LinkMode, Signal, Start};
use link_table::{Joined, Look, Shared};
use link_trials::{begin, drawn};
use std::alloc::Global;
use std::process::Abort;
use std::test::Fail;

/// A node at clock 0, with steps of `pace` cycles and one more, that tells at multiples of `gap` and one more.
fn ticker(pace: u64, gap: u64, limit: u64) -> Ticker
    requires { (limit ≤ 2 ^ 39) × (gap < 2 ^ 40) }
    ensures { (result.clock ≡ 0) × (result.was ≡ 0) × (result.limit ≡ limit) }
{
    Ticker {
        first: pace,
        pace,
        gap,
        clock: 0,
        was: 0,
        limit,
    }
}

/// What such a node tells in a step that begins at this clock.
fn told(clock: u64) -> Signal {
    Signal {
        clock,
        mode: LinkMode::Multi,
        start: Some(Start {
            speed: 1,
            word: (clock % (1 << 32)) as u32,
        }),
        reply: None,
    }
}

/// So many steps.
fn steps(rt: &impl Abort, shared: &Shared<Ticker>, console: &mut Console, count: u64)
    requires { console.old.table ≡ shared.now }
    ensures { console.new ≡ console.old }
{
    for index in 0..count {
        assert!(rt; console.step(shared));
    }
}

/// As many steps as are allowed, at most so many.
fn advance(shared: &Shared<Ticker>, console: &mut Console, most: u64)
    requires { console.old.table ≡ shared.now }
    ensures { console.new ≡ console.old }
{
    for index in 0..most {
        if !console.step(shared) {
            break;
        }
    }
}

/// A look, all signals that it counts, and a second look. Signal n is that of the step at clock n times `apart`.
fn catch_up(rt: &impl Abort, shared: &Shared<Ticker>, console: &mut Console, peer: u32, apart: u64)
    requires table { console.old.table ≡ shared.now }
    requires below { peer < console.old.players }
    requires other { peer ≢ console.old.player }
    ensures { console.new ≡ console.old }
{
    let fetched = console.fetched(peer);
    let look = console.look(shared, peer);
    for number in fetched..look.count {
        let signal = console.fetch(shared, peer);
        assert_eq!(rt; signal, Some(told(number.saturating_mul(apart))));
    }
    console.look(shared, peer);
}

#[test]
fn a_peer_that_has_not_stepped_stands_at_its_opening_clock(rt: HostRuntime) -> Result<(), Fail> {
    let first = ticker(2, 8, 1_000);
    let second = ticker(2, 8, 1_000);
    let (shared, mut own, mut other) = two_consoles(
        &rt,
        rt.alloc(),
        first,
        second,
        Delays::all(16),
    )?;
    let seen = own.look(&shared, 1);
    let back = other.look(&shared, 0);
    assert_eq!(rt; seen, Look { clock: 0, count: 0 });
    assert_eq!(rt; back, Look { clock: 0, count: 0 });
    Ok(())
}

#[test]
fn a_look_tells_steps_and_a_fetch_the_signal(rt: HostRuntime) -> Result<(), Fail> {
    let first = ticker(2, 8, 1_000);
    let second = ticker(2, 8, 1_000);
    let (shared, mut own, mut other) = two_consoles(
        &rt,
        rt.alloc(),
        first,
        second,
        Delays::all(16),
    )?;
    let before = own.look(&shared, 1);
    steps(&rt, &shared, &mut other, 3);
    let after = own.look(&shared, 1);
    let signal = own.fetch(&shared, 1);
    let again = own.look(&shared, 1);
    assert_eq!(rt; before, Look { clock: 0, count: 0 });
    assert_eq!(rt; after, Look { clock: 9, count: 1 });
    assert_eq!(rt; signal, Some(told(0)));
    assert_eq!(rt; again, after, "a look that sees nothing new");
    Ok(())
}

#[test]
fn a_clock_is_seen_without_a_seat(rt: HostRuntime) -> Result<(), Fail> {
    let first = ticker(2, 8, 1_000);
    let second = ticker(2, 8, 1_000);
    let (shared, own, mut other) = two_consoles(&rt, rt.alloc(), first, second, Delays::all(16))?;
    steps(&rt, &shared, &mut other, 3);
    assert_eq!(rt; shared.clock_of(0), Some(own.clock()));
    assert_eq!(rt; shared.clock_of(1), Some(9));
    assert_eq!(rt; shared.clock_of(4), None);
    Ok(())
}

/// Rounds of two consoles, the first one with a signal in each cycle, until its clock is at the end. It answers how
/// many signals were fetched.
fn play(
    rt: &impl Abort,
    shared: &Shared<Ticker>,
    own: &mut Console,
    other: &mut Console,
    rounds: u64,
    pace: u64,
) -> u64
    requires own { (own.old.table ≡ shared.now) × (own.old.player ≡ 0) × (own.old.players ≡ 2) }
    requires other { (other.old.table ≡ shared.now) × (other.old.player ≡ 1) × (other.old.players ≡ 2) }
    ensures { (own.new ≡ own.old) × (other.new ≡ other.old) }
{
    for round in 0..rounds {
        advance(shared, own, 2_000);
        catch_up(rt, shared, other, 0, 1);
        advance(shared, other, 3 * (round % 2) + 1);
        catch_up(rt, shared, own, 1, pace);
    }
    other.fetched(0)
}

/// Two consoles at 20,000 signals of the first one, which come one in each cycle.
fn fill_rings(rt: &impl Abort, alloc: Global, delays: Delays) -> Result<(), Fail>
    requires { AreDelays delays }
{
    let first = ticker(0, 0, 20_000);
    let second = ticker(2, 0, 20_000);
    let (shared, mut own, mut other) = two_consoles(rt, alloc, first, second, delays)?;
    let fetched = play(rt, &shared, &mut own, &mut other, 20_000, 3);
    assert_eq!(rt; fetched, 20_000);
    assert!(rt; own.clock() == 20_000 && other.clock() >= 20_000);
    Ok(())
}

#[test]
fn rings_are_used_again_after_4096_signals(rt: HostRuntime) -> Result<(), Fail> {
    for delay in [1, 16, 512, 1024] {
        fill_rings(&rt, rt.alloc(), Delays::all(delay))?;
    }
    // the second console hears the first one soon and is heard late, and the other way round
    for number in [0x0010, 0x0002] {
        fill_rings(&rt, rt.alloc(), drawn(number))?;
    }
    Ok(())
}

#[test]
fn no_more_than_2559_signals_are_unread(rt: HostRuntime) -> Result<(), Fail> {
    // the second node's steps begin at 0, 511 and 1,023, as far as it may go by the first one's clock 0. It stands at
    // 1,535, so the first one, which sends in each cycle, goes to 2,559
    let first = ticker(0, 0, 20_000);
    let second = Ticker {
        first: 510,
        pace: 511,
        gap: 20_000,
        clock: 0,
        was: 0,
        limit: 20_000,
    };
    let (shared, mut own, mut other) = two_consoles(
        &rt,
        rt.alloc(),
        first,
        second,
        Delays::all(1024),
    )?;
    advance(&shared, &mut other, 10);
    assert_eq!(rt; other.clock(), 1535);
    catch_up(&rt, &shared, &mut own, 1, 1);
    assert_eq!(rt; own.fetched(1), 1);
    advance(&shared, &mut own, 10_000);
    assert_eq!(rt; own.clock(), 2559);
    catch_up(&rt, &shared, &mut other, 0, 1);
    assert_eq!(rt; other.fetched(0), 2559);
    Ok(())
}

#[test]
fn counts_go_on_past_24_bits(rt: HostRuntime) -> Result<(), Fail> {
    let first = ticker(0, 0, (1 << 24) + 9_000);
    let second = ticker(511, 511, (1 << 24) + 9_000);
    let (shared, mut own, mut other) = two_consoles(
        &rt,
        rt.alloc(),
        first,
        second,
        Delays::all(1024),
    )?;
    let fetched = play(&rt, &shared, &mut own, &mut other, 40_000, 512);
    assert_eq!(rt; fetched, (1 << 24) + 9_000);
    Ok(())
}

/// The seat of both.
fn meet_both(
    alloc: Global,
    shared: &Shared<Ticker>,
    own: Console,
    other: Console,
) -> Result<Joined<Ticker>, Fail>
    requires table { (own.table ≡ shared.now) × (other.table ≡ shared.now) }
    requires players { (own.player ≡ 0) × (other.player ≡ 1) }
    requires two { (own.players ≡ 2) × (other.players ≡ 2) }
    ensures { IfOk result (λ joined. (joined.table ≡ shared.now) × (length joined.made ≡ 2)) }
{
    let mut seats = Vec::new(alloc);
    seats.push(own.into_seat())?;
    seats.push(other.into_seat())?;
    Ok(shared.meet(seats))
}

/// The signals that a player hasn't fetched, one of each number from `first` to `end`, and then none.
fn rest_of(
    rt: &impl Abort,
    shared: &Shared<Ticker>,
    joined: &mut Joined<Ticker>,
    player: u32,
    peer: u32,
    first: u64,
    end: u64,
    pace: u64,
)
    requires table { (joined.old.table ≡ shared.now) × (length joined.old.made ≡ 2) }
    requires pair { player + peer ≡ 1 }
    ensures { (joined.new.table ≡ shared.now) × (length joined.new.made ≡ 2) }
{
    for number in first..end {
        let signal = shared.rest(joined, player, peer);
        assert_eq!(rt; signal, Some(told(number.saturating_mul(pace))));
    }
    let none = shared.rest(joined, player, peer);
    assert!(rt; none.is_none());
}

#[test]
fn what_was_not_fetched_is_left_in_order(rt: HostRuntime) -> Result<(), Fail> {
    let first = ticker(0, 0, 1_000);
    let second = ticker(2, 0, 1_000);
    let (shared, mut own, mut other) = two_consoles(
        &rt,
        rt.alloc(),
        first,
        second,
        Delays::all(16),
    )?;
    steps(&rt, &shared, &mut own, 5);
    let look = other.look(&shared, 0);
    let none = other.fetch(&shared, 0);
    let one = other.fetch(&shared, 0);
    steps(&rt, &shared, &mut own, 3);
    steps(&rt, &shared, &mut other, 2);
    assert_eq!(rt; look, Look { clock: 5, count: 5 });
    assert!(rt; none == Some(told(0)) && one == Some(told(1)));
    let mut joined = meet_both(rt.alloc(), &shared, own, other)?;
    rest_of(&rt, &shared, &mut joined, 1, 0, 2, 8, 1);
    rest_of(&rt, &shared, &mut joined, 0, 1, 0, 2, 3);
    Ok(())
}

#[test]
fn one_console_alone_meets_itself(rt: HostRuntime) -> Result<(), Fail> {
    let mut nodes = Vec::new(rt.alloc());
    nodes.push(ticker(2, 8, 1_000))?;
    let Ok(cut) = begin(rt.alloc(), nodes, Delays::all(16)) else {
        panic!(rt; "no memory");
    };
    let Ok((shared, seats)) = Shared::begin(rt.alloc(), &cut) else {
        panic!(rt; "no memory");
    };
    assert!(rt; seats.len() == 1);
    let _joined = shared.meet(seats);
    Ok(())
}

/// The end of the tickers below.
const LIMIT: u64 = 6_000;

/// A ticker by its pace and its gap, and what they come to by hand: how many cycles are between two of its signals, how
/// many signals it tells before the end, and its clock after the last step.
struct Row {
    pace: u64,
    gap: u64,
    apart: u64,
    signals: u64,
    end: u64,
}

static ROWS: [Row; 4] = [
    // a step and a signal in each cycle, more than a ring holds
    Row {
        pace: 0,
        gap: 0,
        apart: 1,
        signals: 6000,
        end: 6000,
    },
    // 857 * 7 = 5,999
    Row {
        pace: 6,
        gap: 6,
        apart: 7,
        signals: 858,
        end: 6006,
    },
    // steps at multiples of 4, signals at those of 6 among them
    Row {
        pace: 3,
        gap: 5,
        apart: 12,
        signals: 500,
        end: 6000,
    },
    // 11 * 512 = 5,632
    Row {
        pace: 511,
        gap: 0,
        apart: 512,
        signals: 12,
        end: 6144,
    },
];

/// The row of a player, where player 0 has the row `first`.
fn row_of(player: usize, first: usize) -> &'static Row {
    &ROWS[player.wrapping_add(first) % 4]
}

/// A course: the row of player 0's ticker, from which on the others' rows follow, and the delays.
#[derive(Clone, Copy)]
struct Course {
    first: usize,
    delays: Delays,
}

/// A table of so many consoles of a course.
fn row_consoles(
    rt: &impl Abort,
    alloc: Global,
    count: usize,
    course: &Course,
) -> Result<(Shared<Ticker>, Vec<Console>), Fail>
    requires some { 0 < count }
    requires four { count ≤ 4 }
    requires delays { AreDelays course.now.delays }
    ensures { IfOk result (λ made. AreSeated made.0 count count made.1.items) }
{
    let mut nodes = Vec::new(alloc);
    for player in 0..count {
        let row = row_of(player, course.first);
        assert!(rt; row.gap < 512);
        nodes.push(ticker(row.pace, row.gap, LIMIT))?;
    }
    make_consoles(rt, alloc, nodes, course.delays)
}

/// A console catches up with a peer. The first of the signals that are new to it arrives after its last step began.
fn hear(rt: &impl Abort, shared: &Shared<Ticker>, console: &mut Console, peer: u32, course: &Course)
    requires table { console.old.table ≡ shared.now }
    requires below { peer < console.old.players }
    requires other { peer ≢ console.old.player }
    ensures { console.new ≡ console.old }
{
    let apart = row_of(peer as usize, course.first).apart;
    let number = console.fetched(peer);
    catch_up(rt, shared, console, peer, apart);
    if console.fetched(peer) > number {
        let delay = course.delays.hop(peer as usize, console.player() as usize);
        let arrival = number.saturating_mul(apart).saturating_add(delay);
        assert!(rt; console.was() < arrival);
    }
}

/// A console catches up with each other one, and steps as far as it may.
fn take_turn(rt: &impl Abort, shared: &Shared<Ticker>, console: &mut Console, course: &Course)
    requires { console.old.table ≡ shared.now }
    ensures { console.new ≡ console.old }
{
    for peer in 0..console.count() {
        if peer != console.player() {
            hear(rt, shared, console, peer, course);
        }
    }
    advance(shared, console, 10_000);
}

/// One turn of each console.
fn play_round(rt: &impl Abort, shared: &Shared<Ticker>, consoles: &mut [Console], course: &Course)
    requires { AreSeated shared.now (length consoles.old) (length consoles.old) consoles.old }
    ensures { consoles.new ≡ consoles.old }
{
    for player in 0..consoles.len() {
        take_turn(rt, shared, &mut consoles[player], course);
    }
}

/// Whether all have come to their end.
fn are_done(consoles: &[Console]) -> bool {
    consoles.iter().all(|console| console.clock() >= LIMIT)
}

/// Rounds until all have come to their end, and one more, so that each knows all.
fn play_all(rt: &impl Abort, shared: &Shared<Ticker>, consoles: &mut [Console], course: &Course)
    requires { AreSeated shared.now (length consoles.old) (length consoles.old) consoles.old }
    ensures { consoles.new ≡ consoles.old }
{
    for round in 0..10_000 {
        if are_done(consoles) {
            break;
        }
        play_round(rt, shared, consoles, course);
    }
    play_round(rt, shared, consoles, course);
}

/// A console has come to its end and has fetched all signals of each other one.
fn knows_all(rt: &impl Abort, console: &Console, first: usize) {
    assert_eq!(rt;
        console.clock(),
        row_of(console.player() as usize, first).end
    );
    for peer in 0..console.count() {
        if peer != console.player() {
            assert_eq!(rt; console.fetched(peer), row_of(peer as usize, first).signals);
        }
    }
}

/// So many consoles of a course, until each knows all.
fn play_rows(rt: &impl Abort, alloc: Global, count: usize, course: &Course) -> Result<(), Fail>
    requires some { 0 < count }
    requires four { count ≤ 4 }
    requires delays { AreDelays course.now.delays }
{
    let (shared, mut consoles) = row_consoles(rt, alloc, count, course)?;
    play_all(rt, &shared, &mut consoles, course);
    for console in &consoles {
        knows_all(rt, console, course.first);
    }
    Ok(())
}

#[test]
fn two_to_four_consoles_come_to_their_end_and_know_all_signals(
    rt: HostRuntime,
) -> Result<(), Fail> {
    for count in 2..5 {
        for number in [0x0000, 0xffff, 0x0010, 0x0812, 0x4821, 0xa5c3] {
            for first in 0..4 {
                let delays = drawn(number);
                play_rows(&rt, rt.alloc(), count, &Course { first, delays })?;
            }
        }
    }
    Ok(())
}

#[test]
fn of_two_consoles_each_goes_as_far_as_the_delay_from_the_other(
    rt: HostRuntime,
) -> Result<(), Fail> {
    // a signal takes a cycle from 0 to 1, and 1,024 cycles back
    let (shared, mut own, mut other) = two_consoles(
        &rt,
        rt.alloc(),
        ticker(0, 0, LIMIT),
        ticker(0, 0, LIMIT),
        drawn(0x0010),
    )?;
    advance(&shared, &mut own, 2_000);
    advance(&shared, &mut other, 2_000);
    assert_eq!(rt; (own.clock(), other.clock()), (1024, 1));
    catch_up(&rt, &shared, &mut other, 0, 1);
    advance(&shared, &mut other, 2_000);
    assert_eq!(rt; other.clock(), 1025);
    catch_up(&rt, &shared, &mut own, 1, 1);
    advance(&shared, &mut own, 2_000);
    assert_eq!(rt; own.clock(), 2049);
    Ok(())
}

/// Of four consoles with a step in each cycle that have seen the opening alone, only the receiver of the short delay
/// stops at it.
fn one_short_delay(
    rt: &impl Abort,
    alloc: Global,
    sender: usize,
    receiver: usize,
) -> Result<(), Fail> {
    let node = ticker(0, 0, LIMIT);
    let nodes = vec![in alloc; node, node, node, node]?;
    let delays = Delays::all(1024).with(sender, receiver, 1);
    let (shared, mut consoles) = make_consoles(rt, alloc, nodes, delays)?;
    for player in 0..consoles.len() {
        advance(&shared, &mut consoles[player], 2_000);
        let end = if player == receiver { 1 } else { 1024 };
        assert_eq!(rt; consoles[player].clock(), end);
    }
    Ok(())
}

#[test]
fn each_short_delay_stops_its_receiver_alone(rt: HostRuntime) -> Result<(), Fail> {
    for sender in 0..4 {
        for receiver in 0..4 {
            if sender != receiver {
                one_short_delay(&rt, rt.alloc(), sender, receiver)?;
            }
        }
    }
    Ok(())
}
