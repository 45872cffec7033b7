//! The digests of what the consoles of a session make.

ghost use Rattle.std.specs.Prelude.{ℕ, List, Bool, ◌≡◌, ◌<◌, [], get_or, length, true};
ghost use Rattle.gba_console.specs.Machine.{Machine};
ghost use Rattle.gba_joblog.specs.Outputs.{at_kind};
ghost use Rattle.gba_joblog.specs.declared.outputs.PerKind.{PerKind};
ghost use Rattle.gba_session.specs.Digests.{Adds, AddsEach, AddsHere};
ghost use Rattle.gba_session.specs.Session.{is_over, segment_cut};
ghost use Rattle.sha2.specs.Hashers.{Holds256};
ghost use Rattle.sha2.specs.Sha256.{sha256};

use crate::session::Session;
use crate::starting::keep;
use gba_joblog::{KINDS, OutKind, PerKind};
use gba_store::Gate;
use sha2::{Digest, Sha256};
use std::alloc::{AllocError, Global};
use std::marker::Model;
use std::snapshot::Snapshot;
use std::thread::{Threads, for_each_mut};

/// So many bytes of a piece are worth a thread's start: their digest takes some milliseconds.
const MUCH: usize = 1 << 19;

/// A hasher for each kind of output, which has no byte yet.
fn hashers() -> PerKind<Sha256>
    ensures frames { Holds256 result.frames [] }
    ensures samples { Holds256 result.samples [] }
    ensures words { Holds256 result.words [] }
    ensures state { Holds256 result.state [] }
    ensures save { Holds256 result.save [] }
{
    PerKind {
        frames: Sha256::new(),
        samples: Sha256::new(),
        words: Sha256::new(),
        state: Sha256::new(),
        save: Sha256::new(),
    }
}

/// The digest of what a hasher holds.
fn digest_in(hasher: &Sha256) -> [u8; 32]
    ensures { (message : List ℕ) → Holds256 hasher.now message → result ≡ sha256 message }
{
    match hasher.clone() {
        Ok(hasher) => hasher.finalize(),
        Err(_) => unreachable!(),
    }
}

/// Hashes a player's piece of one kind, where it has one.
fn add(hasher: &mut Sha256, session: &Session, player: usize, kind: OutKind)
    requires player { player < length session.now.asks }
    requires segment { length (segment_cut session.now).consoles ≡ length session.now.asks }
    ensures { (asks : PerKind Bool) (m : Machine) → at_kind (get_or session.now.asks player asks) kind ≡ true
        → Adds (is_over session.now) kind hasher.old (get_or (segment_cut session.now).consoles player m) hasher.new }
{
    if session.has_piece(player, kind) {
        hasher.update(session.piece(player, kind));
    }
}

/// Hashes a player's pieces.
fn add_all(hashers: &mut PerKind<Sha256>, session: &Session, player: usize)
    requires player { player < length session.now.asks }
    requires segment { length (segment_cut session.now).consoles ≡ length session.now.asks }
    ensures { AddsHere session.now player hashers.old hashers.new }
{
    add(&mut hashers.frames, session, player, OutKind::Frames);
    add(&mut hashers.samples, session, player, OutKind::Samples);
    add(&mut hashers.words, session, player, OutKind::Words);
    add(&mut hashers.state, session, player, OutKind::State);
    add(&mut hashers.save, session, player, OutKind::Save);
}

/// Hashes the pieces of all players, one after another.
fn add_in_turn(each: &mut Vec<PerKind<Sha256>>, session: &Session)
    requires many { length each.old.items ≡ length session.now.asks }
    requires segment { length (segment_cut session.now).consoles ≡ length session.now.asks }
    ensures { AddsEach session.now each.old.items each.new.items }
{
    for player in 0..each.len() {
        add_all(&mut each[player], session, player);
    }
}

/// The same, those of each player on a thread of its own.
fn add_side_by_side<R: Threads + Sync>(rt: &R, each: &mut [PerKind<Sha256>], session: &Session)
    requires many { length each.old ≡ length session.now.asks }
    requires segment { length (segment_cut session.now).consoles ≡ length session.now.asks }
    ensures { AddsEach session.now each.old each.new }
{
    for_each_mut(
        rt,
        each,
        4,
        &|player: usize, hashers: &mut PerKind<Sha256>|
            requires { (player < length session.now.asks)
                × (length (segment_cut session.now).consoles ≡ length session.now.asks) }
            ensures { AddsHere session.entry.now player hashers.entry.now hashers.exit.now }
        { add_all(hashers, session, player) },
    );
}

/// Hashes the pieces of all players: one after another, or those of each player on a thread of its own.
fn add_pieces<R: Threads + Sync>(
    rt: &R,
    each: &mut Vec<PerKind<Sha256>>,
    session: &Session,
    side_by_side: bool,
)
    requires many { length each.old.items ≡ length session.now.asks }
    requires segment { length (segment_cut session.now).consoles ≡ length session.now.asks }
    ensures { AddsEach session.now each.old.items each.new.items }
{
    if side_by_side {
        add_side_by_side(rt, each.as_mut_slice(), session);
    } else {
        add_in_turn(each, session);
    }
}

/// Whether a player has a piece whose digest is worth a thread's start.
fn has_much(session: &Session, player: usize) -> bool
    requires { player < length session.now.asks }
{
    for kind in KINDS {
        if session.has_piece(player, kind) && session.piece(player, kind).len() >= MUCH {
            return true;
        }
    }
    false
}

/// Whether so much is to be hashed of a session's last segment that it's worth threads, and the gate has room for one of
/// each console, and for two at least. No result depends on it.
pub fn are_worth_threads<G: Gate>(session: &Session, gate: &G) -> bool {
    for player in 0..session.players() {
        if has_much(session, player) {
            return gate.has_room(session.players().max(2));
        }
    }
    false
}

/// The digests of all that the consoles of a session have made so far. Contracts see the session as it was when its
/// pieces were taken last.
#[derive(Drop)]
pub struct Digests {
    of: Snapshot<Session>,
    each: Vec<PerKind<Sha256>>,
}

impl Model for Digests {
    ghost use Rattle.gba_session.specs.Digests.{AreHashed};
    ghost use Rattle.gba_session.specs.Session.{Consoles};

    ghost Value = { Consoles };

    ghost view = { λ d. d.of.value };

    ghost invariant = { λ d. AreHashed d.of.value d.each.items };
}

impl Digests {
    ghost use Rattle.std.specs.Prelude.{◌≡◌, ◌<◌, Bool, IfOk, Some, false, length, slice_get, true};
    ghost use Rattle.gba_console.specs.Machine.{Machine};
    ghost use Rattle.gba_joblog.specs.Outputs.{at_kind};
    ghost use Rattle.gba_joblog.specs.declared.outputs.PerKind.{PerKind};
    ghost use Rattle.gba_session.specs.Digests.{IsFresh};
    ghost use Rattle.gba_session.specs.Files.{output_bytes};
    ghost use Rattle.gba_session.specs.Session.{advanced, is_over, whole_cut};
    ghost use Rattle.sha2.specs.Sha256.{sha256};

    /// Those of a session of which no segment is run yet, as far as there is memory.
    pub fn new(alloc: Global, session: &Session) -> Result<Digests, AllocError>
        requires { IsFresh session.now }
        ensures { IfOk result (λ digests. digests ≡ session.now) }
    {
        session.joins();
        let mut each = Vec::new(alloc);
        for _player in 0..session.players() {
            keep(&mut each, hashers())?;
        }
        Ok(Digests {
            of: Snapshot::of(session),
            each,
        })
    }

    /// Takes the pieces of the next segment, which the session has just run, and its states and saves where the run is
    /// over: those of each player on a thread of its own, or all one after another.
    pub fn take<R: Threads + Sync>(&mut self, rt: &R, session: &Session, side_by_side: bool)
        requires left { is_over self.old ≡ false }
        requires next { session.now ≡ advanced self.old }
        ensures { self.new ≡ session.now }
    {
        session.joins();
        add_pieces(rt, &mut self.each, session, side_by_side);
        self.of = Snapshot::of(session);
    }

    /// How many consoles there are.
    pub fn players(&self) -> usize
        ensures asks { result ≡ length self.now.asks }
        ensures whole { length (whole_cut self.now).consoles ≡ length self.now.asks }
    {
        self.each.len()
    }

    /// The SHA-256 digest of all the bytes of an output that a player is asked for, once the run is over.
    pub fn digest(&self, player: usize, kind: OutKind) -> [u8; 32]
        requires player { player < length self.now.asks }
        requires asked { (asks : PerKind Bool) → slice_get self.now.asks player ≡ Some asks → at_kind asks kind ≡ true }
        requires over { is_over self.now ≡ true }
        ensures { (m : Machine) → slice_get (whole_cut self.now).consoles player ≡ Some m
            → result ≡ sha256 (output_bytes kind m) }
    {
        digest_in(self.each[player].at(kind))
    }
}
