//! The pieces that a run adds to the files of its outputs.

ghost use Rattle.std.specs.Prelude.{◌≡◌, ◌≤◌, ◌++◌, ◌∷◌, [], ℕ, List, IfOk, IfSome, Some, false, length, map, min, option_map, slice_get, string_bytes, string_len, true};
ghost use Rattle.std.specs.List.{All};
ghost use Rattle.gba_command.specs.Views.{output_value, write_end};
ghost use Rattle.gba_command.specs.Writing.{PerformsAll, addition};
ghost use Rattle.gba_console.specs.Machine.{Machine};
ghost use Rattle.gba_joblog.specs.Views.{console_value};
ghost use Rattle.gba_session.specs.Files.{asks_of, grows};
ghost use Rattle.gba_session.specs.Session.{is_over, segment_cut, whole_cut};
ghost use Rattle.gba_run_files.specs.Pieces.{console_pieces, cut_pieces, growing_kinds, kind_piece, lasting_kinds, left_pieces, piece_if};
ghost use Rattle.gba_run_files.specs.Ready.{IsLast, IsSegmentBefore};
ghost use Rattle.gba_run_files.specs.Views.{names_value};

use crate::names::Names;
use gba_command::{WriteStop, append};
use gba_joblog::{JobConsole, OutKind};
use gba_session::{Digests, Session, are_worth_threads};
use gba_store::{Gate, Sink};
use std::alloc::Global;
use std::thread::{Threads, join_mut};

/// The most cycles of a segment.
const SEGMENT_CYCLES: u64 = 16_777_216;

/// Adds bytes to a file. Where there are none, no call is made.
fn append_some<O: Sink>(out: &mut O, name: &String, bytes: &[u8]) -> Result<(), WriteStop>
    requires { string_len name.now ≤ 200 }
    ensures { PerformsAll O.Tells (map addition (piece_if (string_bytes name.now) bytes.now))
        (O.state out.old) (O.state out.new) (write_end result) }
{
    if bytes.is_empty() {
        Ok(())
    } else {
        append(out, name.as_str(), bytes)
    }
}

/// Adds the piece of one kind to its file, where it is asked for.
fn append_kind<O: Sink>(
    out: &mut O,
    names: &Names,
    console: &JobConsole,
    session: &Session,
    player: usize,
    kind: OutKind,
) -> Result<(), WriteStop>
    requires asks { slice_get session.now.asks player ≡ Some (asks_of (console_value console.now)) }
    requires over { grows kind ≡ false → is_over session.now ≡ true }
    ensures { (m : Machine) → slice_get (segment_cut session.now).consoles player ≡ Some m → PerformsAll O.Tells
        (map addition (kind_piece (names_value names.now) (asks_of (console_value console.now)) m kind))
        (O.state out.old) (O.state out.new) (write_end result) }
{
    if console.asks_for(kind) {
        append_some(out, names.each.at(kind), session.piece(player, kind))
    } else {
        Ok(())
    }
}

/// Adds the pieces of these kinds of one console to their files.
fn append_console<O: Sink>(
    out: &mut O,
    kinds: &[OutKind],
    names: &Names,
    console: &JobConsole,
    session: &Session,
    player: usize,
) -> Result<(), WriteStop>
    requires asks { slice_get session.now.asks player ≡ Some (asks_of (console_value console.now)) }
    requires over { All (λ kind. grows kind ≡ false → is_over session.now ≡ true) kinds.now }
    ensures { (m : Machine) → slice_get (segment_cut session.now).consoles player ≡ Some m → PerformsAll O.Tells
        (map addition (console_pieces kinds.now (names_value names.now) (asks_of (console_value console.now)) m))
        (O.state out.old) (O.state out.new) (write_end result) }
{
    for place in 0..kinds.len() {
        append_kind(out, names, console, session, player, kinds[place])?;
    }
    Ok(())
}

/// Adds the pieces of these kinds of all consoles to their files.
fn append_pieces<O: Sink>(
    out: &mut O,
    kinds: &[OutKind],
    names: &[Names],
    consoles: &[JobConsole],
    session: &Session,
) -> Result<(), WriteStop>
    requires names { length names.now ≡ length consoles.now }
    requires asks { session.now.asks ≡ map asks_of (map console_value consoles.now) }
    requires over { All (λ kind. grows kind ≡ false → is_over session.now ≡ true) kinds.now }
    ensures { PerformsAll O.Tells
        (map addition
        (cut_pieces kinds.now (map names_value names.now) session.now.asks (segment_cut session.now).consoles))
        (O.state out.old) (O.state out.new) (write_end result) }
{
    for player in 0..session.players() {
        let console = &consoles[player];
        append_console(out, kinds, &names[player], console, session, player)?;
    }
    Ok(())
}

/// Adds what the last segment made to the files that grow.
fn append_segment<O: Sink>(
    out: &mut O,
    names: &[Names],
    consoles: &[JobConsole],
    session: &Session,
) -> Result<(), WriteStop>
    requires names { length names.now ≡ length consoles.now }
    requires asks { session.now.asks ≡ map asks_of (map console_value consoles.now) }
    ensures { PerformsAll O.Tells (map addition (cut_pieces growing_kinds (map names_value names.now) session.now.asks
        (segment_cut session.now).consoles))
        (O.state out.old) (O.state out.new) (write_end result) }
{
    let kinds = [OutKind::Frames, OutKind::Samples, OutKind::Words];
    append_pieces(out, kinds.as_slice(), names, consoles, session)
}

/// Adds what the last segment made to the files that grow, while another thread has its digests taken.
fn append_beside<R: Threads + Sync, O: Sink>(
    rt: &R,
    out: &mut O,
    names: &[Names],
    consoles: &[JobConsole],
    session: &Session,
    digests: &mut Digests,
) -> Result<(), WriteStop>
    requires names { length names.now ≡ length consoles.now }
    requires asks { session.now.asks ≡ map asks_of (map console_value consoles.now) }
    requires before { IsSegmentBefore session.now digests.old }
    ensures pieces { PerformsAll O.Tells (map addition (cut_pieces growing_kinds (map names_value names.now)
        session.now.asks (segment_cut session.now).consoles))
        (O.state out.old) (O.state out.new) (write_end result) }
    ensures digests { digests.new ≡ session.now }
{
    let (_, end) = join_mut(
        rt,
        &mut ||
            requires { IsSegmentBefore session.now digests.now }
            ensures { digests.exit.now ≡ session.entry.now }
        { digests.take(rt, session, true) },
        &mut || -> Result<(), WriteStop>
            requires names { length names.now ≡ length consoles.now }
            requires asks { session.now.asks ≡ map asks_of (map console_value consoles.now) }
            ensures { PerformsAll O.Tells (map addition (cut_pieces growing_kinds (map names_value names.entry.now)
                session.entry.now.asks (segment_cut session.entry.now).consoles))
                (O.state out.entry.now) (O.state out.exit.now) (write_end result) }
        { append_segment(out, names, consoles, session) },
    );
    end
}

/// Adds what the last segment made to the files that grow, and has its digests taken: beside it on threads, where they
/// are worth it.
fn append_digested<R: Threads + Sync, O: Sink, G: Gate>(
    rt: &R,
    out: &mut O,
    names: &[Names],
    consoles: &[JobConsole],
    session: &Session,
    gate: &G,
    digests: &mut Digests,
) -> Result<(), WriteStop>
    requires names { length names.now ≡ length consoles.now }
    requires asks { session.now.asks ≡ map asks_of (map console_value consoles.now) }
    requires before { IsSegmentBefore session.now digests.old }
    ensures pieces { PerformsAll O.Tells (map addition (cut_pieces growing_kinds (map names_value names.now)
        session.now.asks (segment_cut session.now).consoles))
        (O.state out.old) (O.state out.new) (write_end result) }
    ensures digests { digests.new ≡ session.now }
{
    if are_worth_threads(session, gate) {
        append_beside(rt, out, names, consoles, session, digests)
    } else {
        digests.take(rt, session, false);
        append_segment(out, names, consoles, session)
    }
}

/// Adds what the last segment made to the files that grow, and has its digests taken where there are any.
fn append_taken<R: Threads + Sync, O: Sink, G: Gate>(
    rt: &R,
    out: &mut O,
    names: &[Names],
    consoles: &[JobConsole],
    session: &Session,
    gate: &G,
    digests: &mut Option<Digests>,
) -> Result<(), WriteStop>
    requires names { length names.now ≡ length consoles.now }
    requires asks { session.now.asks ≡ map asks_of (map console_value consoles.now) }
    requires before { IfSome digests.old (IsSegmentBefore session.now) }
    ensures pieces { PerformsAll O.Tells (map addition (cut_pieces growing_kinds (map names_value names.now)
        session.now.asks (segment_cut session.now).consoles))
        (O.state out.old) (O.state out.new) (write_end result) }
    ensures digests { digests.new ≡ option_map (λ _. session.now) digests.old }
{
    match digests {
        Some(digests) => append_digested(rt, out, names, consoles, session, gate, digests),
        None => append_segment(out, names, consoles, session),
    }
}

/// Adds what is made at the end.
pub(crate) fn append_last<O: Sink>(
    out: &mut O,
    names: &[Names],
    consoles: &[JobConsole],
    session: &Session,
) -> Result<(), WriteStop>
    requires names { length names.now ≡ length consoles.now }
    requires asks { session.now.asks ≡ map asks_of (map console_value consoles.now) }
    requires over { is_over session.now ≡ true }
    ensures { PerformsAll O.Tells (map addition (cut_pieces lasting_kinds (map names_value names.now) session.now.asks
        (whole_cut session.now).consoles))
        (O.state out.old) (O.state out.new) (write_end result) }
{
    session.ends_whole();
    let kinds = [OutKind::State, OutKind::Save];
    append_pieces(out, kinds.as_slice(), names, consoles, session)
}

/// Adds what the first segment made, which is run, and then runs and adds each later one; and has the digests of each
/// taken where there are any.
pub(crate) fn append_segments<R: Threads + Sync, O: Sink, G: Gate + Sync>(
    rt: &R,
    alloc: Global,
    out: &mut O,
    names: &[Names],
    consoles: &[JobConsole],
    first: Session,
    until: u64,
    gate: &G,
    digests: &mut Option<Digests>,
) -> Result<Session, WriteStop>
    requires names { length names.now ≡ length consoles.now }
    requires asks { first.asks ≡ map asks_of (map console_value consoles.now) }
    requires until { first.until ≡ until }
    requires begun { min until 16777216 ≤ first.to }
    requires before { IfSome digests.old (IsSegmentBefore first) }
    ensures pieces { PerformsAll O.Tells (map addition (left_pieces (map names_value names.now) first))
        (O.state out.old) (O.state out.new) (write_end result) }
    ensures last { IfOk result (IsLast first) }
    ensures digests { IfOk result (λ last. digests.new ≡ option_map (λ _. last) digests.old) }
{
    append_taken(rt, out, names, consoles, &first, gate, digests)?;
    let mut session = first;
    for _later in 0..until / SEGMENT_CYCLES {
        if session.finished() {
            return Ok(session);
        }
        session = session.advance(rt, alloc, gate);
        append_taken(rt, out, names, consoles, &session, gate, digests)?;
    }
    Ok(session)
}
