//! A job with what was read for it written in, as its log says it.

ghost use Rattle.std.specs.Prelude.{◌≡◌, length, map, option_map};
ghost use Rattle.std.specs.List.{AllZip};
ghost use Rattle.gba_joblog.specs.Soundness.{IsJob};
ghost use Rattle.gba_joblog.specs.Views.{console_value, file_value, job_value};
ghost use Rattle.gba_inputs.specs.Filled.{any_with_digest, filled, filled_console, filled_consoles, filled_with};
ghost use Rattle.gba_inputs.specs.Law.{AreInputs};
ghost use Rattle.gba_inputs.specs.Views.{images_of, inputs_value};

use crate::inputs::{ImageDigests, Inputs};
use gba_joblog::{FileLine, Job, JobConsole, KeyChange};
use std::alloc::Global;
use std::mem;

/// States the digest of an input that may be named.
fn state(file: &mut Option<FileLine>, digest: Option<[u8; 32]>)
    ensures { option_map file_value file.new ≡ any_with_digest (option_map file_value file.old) digest }
{
    if let Some(file) = file {
        file.digest = digest;
    }
}

/// Writes into a console of a job what was read for it: the digests of its images, and its key changes. Its key file is
/// named no longer. The outputs stay as they are; their digests come with the run.
pub fn fill(console: &mut JobConsole, digests: &ImageDigests, changes: Vec<KeyChange>)
    ensures { console_value console.new ≡ filled_with (console_value console.old) digests.now changes.items }
{
    console.bios.digest = Some(digests.bios);
    state(&mut console.cart, digests.cart);
    state(&mut console.save, digests.save);
    console.keys = None;
    console.changes = changes;
}

/// Writes into a console what was read for it, and takes the key changes from there.
fn fill_one(alloc: Global, console: &mut JobConsole, inputs: &mut Inputs)
    ensures console { console_value console.new
        ≡ filled_console (console_value console.old) (inputs_value inputs.old) }
    ensures images { inputs.new.images ≡ inputs.old.images }
    ensures digests { inputs.new.digests ≡ inputs.old.digests }
{
    let changes = mem::replace(&mut inputs.changes, Vec::new(alloc));
    fill(console, &inputs.digests, changes);
}

/// Writes into consoles what was read for them.
fn fill_all(alloc: Global, consoles: &mut [JobConsole], inputs: &mut [Inputs])
    requires { length consoles.old ≡ length inputs.old }
    ensures consoles { map console_value consoles.new
        ≡ filled_consoles (map console_value consoles.old) (map inputs_value inputs.old) }
    ensures images { map images_of inputs.new ≡ map images_of inputs.old }
{
    for i in 0..consoles.len() {
        fill_one(alloc, &mut consoles[i], &mut inputs[i]);
    }
}

/// Writes into a job what was read for its consoles, and takes the key changes from there; the images stay. The job is
/// then as its log says it, but for the digests of its outputs, which come with the run.
pub fn fill_job(alloc: Global, job: &mut Job, inputs: &mut [Inputs])
    requires sound { IsJob (job_value job.old) }
    requires read { AllZip AreInputs (job_value job.old).consoles (map inputs_value inputs.old) }
    ensures filled { job_value job.new ≡ filled (job_value job.old) (map inputs_value inputs.old) }
    ensures sound { IsJob (job_value job.new) }
    ensures images { map images_of inputs.new ≡ map images_of inputs.old }
{
    fill_all(alloc, job.consoles.as_mut_slice(), inputs);
}
