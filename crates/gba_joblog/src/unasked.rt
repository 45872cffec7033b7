//! A job that asks for nothing.

ghost use Rattle.std.specs.Prelude.{◌≡◌, map};
ghost use Rattle.gba_joblog.specs.Soundness.{IsJob};
ghost use Rattle.gba_joblog.specs.Unasked.{console_unasked, unasked};
ghost use Rattle.gba_joblog.specs.Views.{console_value, job_value};

use crate::job::{Job, JobConsole};
use crate::outputs::PerKind;

/// Consoles that are asked for nothing.
fn ask_for_nothing(consoles: &mut [JobConsole])
    ensures { map console_value consoles.new ≡ map console_unasked (map console_value consoles.old) }
{
    for i in 0..consoles.len() {
        let console = &mut consoles[i];
        console.outs = PerKind::all(None);
    }
}

fn unask(job: &mut Job)
    ensures { job_value job.new ≡ unasked (job_value job.old) }
{
    ask_for_nothing(job.consoles.as_mut_slice());
}

impl Job {
    /// The job with no output asked for, in the same memory: its consoles run as before, and nothing has to be kept of
    /// what they make (this project's profile).
    pub fn without_outputs(mut self) -> Job
        ensures value { job_value result ≡ unasked (job_value self) }
        ensures sound { IsJob (job_value self) → IsJob (job_value result) }
    {
        unask(&mut self);
        self
    }
}
