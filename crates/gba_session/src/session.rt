//! A session: the consoles of a job, which run in segments, and the outputs that they are asked for.

ghost use Rattle.std.specs.Prelude.{◌≡◌, ◌+◌, ◌≤◌, ◌<◌, length, map, true};
ghost use Rattle.std.specs.List.{flat_map};
ghost use Rattle.arrayvec.specs.ArrayVec.{array_vec_len};
ghost use Rattle.gba_console.specs.Machine.{without_limit};
ghost use Rattle.gba_output.specs.StateFile.{summary_line};
ghost use Rattle.gba_session.specs.Files.{grows as grows_of};

use crate::player::Player;
use crate::running::{later_end, run_segment, segment_begin, take_pieces};
use crate::starting::{players_of, start_cut};
use gba_console::Console;
use gba_console::laws::segments;
use gba_image::ConsoleImages;
use gba_joblog::{Job, OutKind};
use gba_output::add_summary;
use gba_store::Gate;
use gba_terms::NoMemory;
use gba_text::Line;
use link_core::Cut;
use std::alloc::Global;
use std::marker::Model;
use std::snapshot::Snapshot;
use std::thread::Threads;

/// The lines of the summary, one for each console, by player number.
fn lines_of(consoles: &[Console]) -> Line
    requires { length consoles.now ≤ 4 }
    ensures lines { result.items ≡ flat_map summary_line (map without_limit consoles.now) }
    ensures short { array_vec_len result ≤ 584 }
{
    let mut lines = Line::new();
    for console in consoles {
        add_summary(&mut lines, console);
    }
    lines
}

/// Whether an output is made piece by piece while the console runs.
fn grows(kind: OutKind) -> bool
    ensures { result ≡ grows_of kind }
{
    matches!(kind, OutKind::Frames | OutKind::Samples | OutKind::Words)
}

/// The consoles of a job on their cable, which run in segments, and the bytes of the last one. Contracts see the
/// consoles at reset, between which clocks the last segment went, the job's cycles, and what each console is asked for.
#[derive(Drop)]
pub struct Session {
    start: Snapshot<Cut<Console>>,
    cut: Cut<Console>,
    from: u64,
    to: u64,
    until: u64,
    players: Vec<Player>,
}

impl Model for Session {
    ghost use Rattle.gba_console.specs.Machine.{without_limit};
    ghost use Rattle.gba_session.specs.Held.{IsSegmented, session_value};
    ghost use Rattle.gba_session.specs.Session.{Consoles};
    ghost use Rattle.link_order.specs.Cut.{plain_cut};

    ghost Value = { Consoles };

    ghost view = { λ s. session_value (plain_cut without_limit s.start.value) s.from s.to s.until s.players.items };

    ghost invariant = { λ s. IsSegmented
        (session_value (plain_cut without_limit s.start.value) s.from s.to s.until s.players.items)
        s.cut s.players.items };
}

impl Session {
    ghost use Rattle.std.specs.Prelude.{◌≡◌, ◌≤◌, ◌<◌, Bool, IfOk, Some, true, false, length, map, slice_get};
    ghost use Rattle.std.specs.List.{flat_map};
    ghost use Rattle.arrayvec.specs.ArrayVec.{array_vec_len};
    ghost use Rattle.gba_console.specs.Machine.{Machine, forgotten, without_limit};
    ghost use Rattle.gba_joblog.specs.Outputs.{at_kind};
    ghost use Rattle.gba_joblog.specs.Soundness.{IsJob};
    ghost use Rattle.gba_joblog.specs.Views.{job_value};
    ghost use Rattle.gba_joblog.specs.declared.outputs.PerKind.{PerKind};
    ghost use Rattle.gba_output.specs.StateFile.{summary_line};
    ghost use Rattle.gba_console.specs.Segments.{joined};
    ghost use Rattle.gba_session.specs.Digests.{IsFresh, has_piece as has_piece_of};
    ghost use Rattle.gba_session.specs.Files.{grows, output_bytes};
    ghost use Rattle.gba_session.specs.Session.{AreEmpty, advanced, is_over, later_end as end_after, prepared, resumed};
    ghost use Rattle.gba_session.specs.Session.{segment_cut, whole_cut};
    ghost use Rattle.gba_session.specs.Start.{FitJob, run_until};
    ghost use Rattle.link_order.specs.Cut.{plain_cut};

    /// The consoles of a job at reset, with these images, one of the other: each for its console's backup, with a save
    /// that was checked for it. The changes of their keys stand in the job, those of key files too. All the memory is
    /// taken that the steps and the outputs of a segment need.
    pub fn prepare(
        alloc: Global,
        job: &Job,
        images: Vec<ConsoleImages>,
    ) -> Result<Session, NoMemory>
        requires sound { IsJob (job_value job.now) }
        requires images { FitJob (job_value job.now) images.items }
        ensures session { IfOk result (λ session. session ≡ prepared (job_value job.now) images.items) }
        ensures fresh { IfOk result IsFresh }
    {
        let players = players_of(alloc, job)?;
        let cut = start_cut(alloc, job, images)?;
        Ok(Session {
            start: Snapshot::of(&cut),
            cut,
            from: 0,
            to: 0,
            until: job.cycles,
            players,
        })
    }

    /// The consoles of a job that go on from where they stand on their cable, with empty lists: as many as the job has,
    /// in the order of their players. The first segment is the one in which the least of their clocks is. The memory is
    /// taken that the outputs of a segment need.
    pub fn resume(alloc: Global, job: &Job, cut: Cut<Console>) -> Result<Session, NoMemory>
        requires sound { IsJob (job_value job.now) }
        requires count { length cut.consoles ≡ length (job_value job.now).consoles }
        requires empty { AreEmpty cut }
        ensures { IfOk result (λ session. session ≡ resumed (job_value job.now) (plain_cut without_limit cut)) }
    {
        let players = players_of(alloc, job)?;
        let begin = segment_begin(job.cycles, cut.least_clock());
        Ok(Session {
            start: Snapshot::of(&cut),
            cut,
            from: begin,
            to: begin,
            until: job.cycles,
            players,
        })
    }

    /// Runs the next segment, which the run still has.
    fn run_next<R: Threads + Sync, G: Gate + Sync>(self, rt: &R, alloc: Global, gate: &G) -> Session
        requires { self.to < self.until }
        ensures { result ≡ record self { from = self.to; to = end_after self.until self.to } }
    {
        segments();
        let end = later_end(self.until, self.to);
        let cut = run_segment(rt, alloc, self.cut, gate, end);
        let mut players = self.players;
        take_pieces(rt, gate, &mut players, cut.nodes(), end >= self.until);
        Session {
            start: self.start,
            cut,
            from: self.to,
            to: end,
            until: self.until,
            players,
        }
    }

    /// Runs the next segment: up to the next multiple of 2^24 cycles, or to the job's cycles where these come first.
    /// Several consoles step side by side on threads, where their steps enter the gate; one alone steps on the caller's
    /// thread, with no gate. Once the run is over nothing more is done.
    pub fn advance<R: Threads + Sync, G: Gate + Sync>(
        self,
        rt: &R,
        alloc: Global,
        gate: &G,
    ) -> Session
        ensures { result ≡ advanced self }
    {
        if self.to < self.until {
            self.run_next(rt, alloc, gate)
        } else {
            self
        }
    }

    /// Whether the run is over: the clock of each console is at least the job's cycles.
    pub fn finished(&self) -> bool
        ensures { result ≡ is_over self.now }
    {
        self.to >= self.until
    }

    /// How many consoles there are.
    pub fn players(&self) -> usize
        ensures asks { result ≡ length self.now.asks }
        ensures segment { length (segment_cut self.now).consoles ≡ length self.now.asks }
        ensures whole { length (whole_cut self.now).consoles ≡ length self.now.asks }
    {
        self.players.len()
    }

    /// The consoles on their cable as they are now, with the lists of the last segment alone.
    pub fn cut(&self) -> &Cut<Console>
        ensures { plain_cut without_limit result.now ≡ segment_cut self.now }
    {
        &self.cut
    }

    /// Whether a player has a piece of an output: it is asked for it, and the output grows or the run is over.
    pub(crate) fn has_piece(&self, player: usize, kind: OutKind) -> bool
        requires { player < length self.now.asks }
        ensures { (asks : PerKind Bool) → slice_get self.now.asks player ≡ Some asks
            → result ≡ has_piece_of (is_over self.now) asks kind }
    {
        *self.players[player].asks.at(kind) && (grows(kind) || self.finished())
    }

    /// The bytes of an output that a player is asked for: of frames, samples and words those of the last segment, of
    /// state and save all, once the run is over.
    pub fn piece(&self, player: usize, kind: OutKind) -> &[u8]
        requires player { player < length self.now.asks }
        requires asked { (asks : PerKind Bool) → slice_get self.now.asks player ≡ Some asks → at_kind asks kind ≡ true }
        requires over { grows kind ≡ false → is_over self.now ≡ true }
        ensures { (m : Machine) → slice_get (segment_cut self.now).consoles player ≡ Some m
            → result.now ≡ output_bytes kind m }
    {
        match kind {
            OutKind::Frames => self.cut.nodes()[player].frames(),
            OutKind::Samples => self.cut.nodes()[player].samples(),
            OutKind::Words => self.players[player].words.as_slice(),
            OutKind::State => self.players[player].state.as_slice(),
            OutKind::Save => self.players[player].save.as_slice(),
        }
    }

    /// What the consoles have made so far is what they made before the last segment, and behind it what they made in that
    /// one; and there are as many of them in each part of the run. It does nothing.
    pub(crate) fn joins(&self)
        ensures within { self.now.to ≤ self.now.until }
        ensures segment { length (segment_cut self.now).consoles ≡ length self.now.asks }
        ensures whole { length (whole_cut self.now).consoles ≡ length self.now.asks }
        ensures so_far { length (run_until self.now.to self.now.start).consoles ≡ length self.now.asks }
        ensures joined { run_until self.now.to self.now.start
            ≡ joined (run_until self.now.from self.now.start) (segment_cut self.now) }
    {
        segments();
        let _last = self.to;
    }

    /// Once the run is over the consoles are those of the whole run, but for the lists that were emptied between
    /// segments. It does nothing.
    pub fn ends_whole(&self)
        requires over { is_over self.now ≡ true }
        ensures consoles { map forgotten (segment_cut self.now).consoles ≡ map forgotten (whole_cut self.now).consoles }
        ensures sent { (segment_cut self.now).sent ≡ (whole_cut self.now).sent }
    {
        segments();
        let _last = self.to;
    }

    /// The lines of the summary, one for each console, by player number, once the run is over.
    pub fn summary(&self) -> Line
        requires over { is_over self.now ≡ true }
        ensures lines { result.items ≡ flat_map summary_line (whole_cut self.now).consoles }
        ensures short { array_vec_len result ≤ 584 }
    {
        segments();
        lines_of(self.cut.nodes())
    }
}
