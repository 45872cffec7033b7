//! The consoles of a job at reset, and what is kept of each player.

ghost use Rattle.std.specs.Prelude.{◌≡◌, ◌≤◌, ◌<◌, ◌^◌, ◌++◌, ◌∷◌, [], IfOk, OnOk, length, map};
ghost use Rattle.std.specs.List.{All};
ghost use Rattle.gba_console.specs.Machine.{limit_of, without_limit};
ghost use Rattle.gba_joblog.specs.Soundness.{IsConsole, IsJob};
ghost use Rattle.gba_joblog.specs.Views.{console_value, job_value};
ghost use Rattle.gba_session.specs.Files.{asks_of};
ghost use Rattle.gba_session.specs.Held.{IsUnused, asks_in};
ghost use Rattle.gba_session.specs.Session.{later_end as end_after};
ghost use Rattle.gba_session.specs.Start.{FitJob, FitsConsole, console_at, consoles_from, key_states, start_of};
ghost use Rattle.gba_session.specs.Start.{room_of as room_said, round_of as round_said};
ghost use Rattle.link_order.specs.Cut.{plain_cut};

use crate::player::Player;
use crate::running::later_end;
use gba_console::{Console, KeyState};
use gba_image::ConsoleImages;
use gba_io::Room;
use gba_joblog::{Job, JobConsole, KeyChange, OutKind};
use gba_terms::NoMemory;
use link_core::Cut;
use std::alloc::{AllocError, Global};

/// The changes of the keys as a console takes them.
fn states_of(alloc: Global, changes: &[KeyChange]) -> Result<Vec<KeyState>, AllocError>
    ensures { IfOk result (λ states. states.items ≡ key_states changes.now) }
{
    changes
        .iter()
        .map(|change| KeyState {
            clock: change.clock,
            keys: change.keys,
        })
        .collect(alloc)
}

/// What is to be kept of what a console makes in the first segment.
fn room_of(job: &Job, console: &JobConsole) -> Room
    requires { job.now.cycles ≤ 2 ^ 39 }
    ensures { result ≡ record (room_said (job_value job.now) (console_value console.now)) {
      until = end_after job.now.cycles 0;
    } }
{
    Room {
        until: later_end(job.cycles, 0),
        frames: console.asks_for(OutKind::Frames),
        samples: console.asks_for(OutKind::Samples),
        words: console.asks_for(OutKind::Words),
    }
}

/// How long a signal takes from player 0 to player 1 and back.
fn round_of(job: &Job) -> u64
    requires { IsJob (job_value job.now) }
    ensures value { result ≡ round_said (job_value job.now) }
    ensures some { 2 ≤ result }
    ensures short { result ≤ 2048 }
{
    job.delays.hop(0, 1) + job.delays.hop(1, 0)
}

/// The console of a player at reset.
fn console_of(
    alloc: Global,
    job: &Job,
    player: usize,
    console: &JobConsole,
    images: ConsoleImages,
) -> Result<Console, NoMemory>
    requires sound { IsJob (job_value job.now) }
    requires player { player < length (job_value job.now).consoles }
    requires console { IsConsole (console_value console.now) }
    requires images { FitsConsole (console_value console.now) images }
    ensures console { IfOk result (λ made. without_limit made
        ≡ without_limit (console_at (job_value job.now) player (console_value console.now) images)) }
    ensures limit { IfOk result (λ made. limit_of made ≡ end_after job.now.cycles 0) }
{
    let keys = states_of(alloc, console.changes.as_slice())?;
    let room = room_of(job, console);
    Console::new(
        alloc,
        player as u32,
        job.consoles.len() as u32,
        round_of(job),
        console.off,
        images,
        keys,
        room,
    )
}

/// Keeps one more, as far as there is memory.
pub(crate) fn keep<T: Drop>(all: &mut Vec<T>, one: T) -> Result<(), AllocError>
    ensures { OnOk result (all.new.items ≡ all.old.items ++ one ∷ []) }
{
    match all.push(one) {
        Ok(()) => Ok(()),
        Err(_) => Err(AllocError),
    }
}

/// The consoles of all players at reset.
fn consoles_of(
    alloc: Global,
    job: &Job,
    images: Vec<ConsoleImages>,
) -> Result<Vec<Console>, NoMemory>
    requires sound { IsJob (job_value job.now) }
    requires images { FitJob (job_value job.now) images.items }
    ensures consoles { IfOk result (λ consoles. map without_limit consoles.items
        ≡ consoles_from (job_value job.now) 0 (job_value job.now).consoles images.items) }
    ensures limits { IfOk result (λ consoles. All (λ limit. end_after job.now.cycles 0 ≤ limit)
        (map limit_of consoles.items)) }
{
    let mut consoles = Vec::new(alloc);
    let mut images = images.into_iter();
    for player in 0..job.consoles.len() {
        let Some(one) = images.next() else {
            unreachable!()
        };
        let console = console_of(alloc, job, player, &job.consoles[player], one)?;
        keep(&mut consoles, console)?;
    }
    Ok(consoles)
}

/// The consoles of a job at reset on their cable, with these images, one of the other: each for its console's backup,
/// with a save that was checked for it. Each has room for what it makes up to the end of the first segment.
pub fn start_cut(
    alloc: Global,
    job: &Job,
    images: Vec<ConsoleImages>,
) -> Result<Cut<Console>, NoMemory>
    requires sound { IsJob (job_value job.now) }
    requires images { FitJob (job_value job.now) images.items }
    ensures start { IfOk result (λ cut. plain_cut without_limit cut ≡ start_of (job_value job.now) images.items) }
    ensures many { IfOk result (λ cut. length cut.consoles ≡ length (job_value job.now).consoles) }
    ensures limits { IfOk result (λ cut. All (λ limit. end_after job.now.cycles 0 ≤ limit)
        (map limit_of cut.consoles)) }
{
    let consoles = consoles_of(alloc, job, images)?;
    let Ok(cut) = Cut::new(alloc, consoles, job.delays) else {
        return Err(NoMemory);
    };
    Ok(cut)
}

/// What is kept of each player, with nothing written.
pub(crate) fn players_of(alloc: Global, job: &Job) -> Result<Vec<Player>, AllocError>
    ensures asks { IfOk result (λ players. map asks_in players.items ≡ map asks_of (job_value job.now).consoles) }
    ensures unused { IfOk result (λ players. All IsUnused players.items) }
{
    let mut players = Vec::new(alloc);
    for console in job.consoles.as_slice() {
        let player = Player::new(alloc, console.asks())?;
        keep(&mut players, player)?;
    }
    Ok(players)
}
