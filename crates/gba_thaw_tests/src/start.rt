//! The consoles of a job at their start.

ghost use Rattle.std.specs.Prelude.{◌≡◌, ◌++◌, ◌∷◌, [], IfOk, OnOk, map};
ghost use Rattle.std.specs.List.{AllZip};
ghost use Rattle.gba_joblog.specs.Soundness.{IsJob};
ghost use Rattle.gba_joblog.specs.Views.{console_value, job_value};
ghost use Rattle.gba_session.specs.Start.{FitsConsole};

use gba_console::Console;
use gba_image::{Bios, ConsoleImages};
use gba_joblog::{Job, JobConsole};
use gba_session::start_cut;
use link_core::Cut;
use std::alloc::{AllocError, Global};
use std::test::Fail;

/// A branch to itself, which takes 3 cycles.
const LOOP: [u8; 4] = [0xFE, 0xFF, 0xFF, 0xEA];

/// The job that a text says.
pub(crate) fn job_of(alloc: Global, text: &str) -> Result<Job, Fail>
    ensures { IfOk result (λ job. IsJob (job_value job)) }
{
    match Job::parse(alloc, text.as_bytes()) {
        Ok(job) => Ok(job),
        Err(_) => Err("no job")?,
    }
}

/// The images of a console: a BIOS that is a branch to itself and zeros behind it, no cartridge and no save.
fn images_for(alloc: Global, console: &JobConsole) -> Result<ConsoleImages, Fail>
    ensures { IfOk result (FitsConsole (console_value console.now)) }
{
    let mut bytes = Vec::from_slice(alloc, &LOOP)?;
    bytes.resize(16_384, 0)?;
    let bios = Bios::check(bytes).ok().ok_or("no BIOS")?;
    Ok(ConsoleImages {
        bios,
        cart: None,
        save: None,
        backup: console.backup,
    })
}

/// Keeps one more, as far as there is memory.
fn keep(all: &mut Vec<ConsoleImages>, one: ConsoleImages) -> Result<(), AllocError>
    ensures { OnOk result (all.new.items ≡ all.old.items ++ one ∷ []) }
{
    match all.push(one) {
        Ok(()) => Ok(()),
        Err(_) => Err(AllocError),
    }
}

/// The images of all consoles.
fn all_images(alloc: Global, consoles: &[JobConsole]) -> Result<Vec<ConsoleImages>, Fail>
    ensures { IfOk result (λ images. AllZip FitsConsole (map console_value consoles.now) images.items) }
{
    let mut all = Vec::new(alloc);
    for console in consoles {
        let images = images_for(alloc, console)?;
        keep(&mut all, images)?;
    }
    Ok(all)
}

/// The consoles of a job at their start on their cable.
pub(crate) fn start_of(alloc: Global, job: &Job) -> Result<Cut<Console>, Fail>
    requires { IsJob (job_value job.now) }
{
    let images = all_images(alloc, job.consoles.as_slice())?;
    Ok(start_cut(alloc, job, images)?)
}
