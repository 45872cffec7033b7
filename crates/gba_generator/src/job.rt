//! The job that runs the four consoles.

ghost use Rattle.std.specs.Prelude.{◌≡◌, ◌≤◌, ◌<◌, ◌^◌, IfOk, string_bytes};
ghost use Rattle.gba_command.specs.Words.{IsOut};
ghost use Rattle.gba_joblog.specs.Soundness.{IsJob};
ghost use Rattle.gba_joblog.specs.Views.{console_value, job_value};
ghost use Rattle.gba_generator.specs.Job.{job as job_of, job_text as job_text_of, console as console_of, console_text};

use crate::names::bios_name;
use gba_image::Backup;
use gba_joblog::{FileLine, Job, JobConsole, OutKind, OutLine, PerKind};
use link_node::Delays;
use std::alloc::{AllocError, Global};

/// The delay in cycles of each pair of the cable.
const DELAY: u64 = 512;

/// The lines before those of the first console's BIOS, and the lines of each console.
const LINES_BEFORE: u64 = 5;

const LINES_OF_CONSOLE: u64 = 4;

/// A console with its BIOS, which is asked for its words and its state.
fn console(alloc: Global, out: &str, player: u64) -> Result<JobConsole, AllocError>
    requires out { IsOut out.now }
    requires player { player < 4 }
    ensures { IfOk result (λ made. console_value made ≡ console_of out.now player) }
{
    let name = bios_name(alloc, out, player)?;
    let bios = FileLine {
        name,
        digest: None,
        line: LINES_BEFORE + LINES_OF_CONSOLE * player,
    };
    let asked = Some(OutLine { digest: None });
    let mut outs = PerKind::all(None);
    outs.put(OutKind::Words, asked);
    outs.put(OutKind::State, asked);
    Ok(JobConsole {
        bios,
        cart: None,
        save: None,
        keys: None,
        changes: Vec::new(alloc),
        backup: Backup::Sram,
        off: 0,
        outs,
    })
}

/// The job of four consoles with the images that are made of a number, which run for so many cycles of 16,777,216 Hz
/// and are asked for their words and their states. This project's profile.
pub fn make_job(alloc: Global, cycles: u64, out: &str) -> Result<Job, AllocError>
    requires cycles { (1 ≤ cycles) × (cycles ≤ 2 ^ 31) }
    requires out { IsOut out.now }
    ensures job { IfOk result (λ made. job_value made ≡ job_of cycles out.now) }
    ensures sound { IfOk result (λ made. IsJob (job_value made)) }
{
    let first = console(alloc, out, 0)?;
    let second = console(alloc, out, 1)?;
    let third = console(alloc, out, 2)?;
    let fourth = console(alloc, out, 3)?;
    let consoles = vec![in alloc; first, second, third, fourth]?;
    Ok(Job {
        cycles,
        delays: Delays::all(DELAY),
        consoles,
    })
}

/// The lines of a console.
fn console_lines(alloc: Global, out: &str, player: u64) -> Result<String, AllocError>
    ensures { IfOk result (λ text. string_bytes text ≡ console_text out.now player) }
{
    let text = format!(in alloc;
        "console {player}\nbios {out}.{player}.bios\nout words\nout state\n"
    )?;
    Ok(text)
}

/// The lines of that job, which is of version 1 of the language and states no digest.
pub fn job_text(alloc: Global, cycles: u64, out: &str) -> Result<Vec<u8>, AllocError>
    ensures text { IfOk result (λ text. text.items ≡ job_text_of cycles out.now) }
{
    let first = console_lines(alloc, out, 0)?;
    let second = console_lines(alloc, out, 1)?;
    let third = console_lines(alloc, out, 2)?;
    let fourth = console_lines(alloc, out, 3)?;
    let text = format!(in alloc;
        "gbalink 1\ncycles {cycles}\ndelay {DELAY}\n{first}{second}{third}{fourth}end\n"
    )?;
    Ok(text.into_bytes())
}
