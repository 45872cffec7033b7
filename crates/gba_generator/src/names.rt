//! The names of the files that are made.

ghost use Rattle.std.specs.Prelude.{◌≡◌, ◌≤◌, ◌<◌, IfOk, length, string_bytes, string_len};
ghost use Rattle.gba_generator.specs.Job.{bios_file, job_file};

use std::alloc::{AllocError, Global};

/// The name of the BIOS image of a player's console under OUT.
pub fn bios_name(alloc: Global, out: &str, player: u64) -> Result<String, AllocError>
    requires { (length out.now ≤ 180) × (player < 4) }
    ensures name { IfOk result (λ name. string_bytes name ≡ bios_file out.now player) }
    ensures short { IfOk result (λ name. string_len name ≤ 200) }
{
    let name = format!(in alloc; "{out}.{player}.bios")?;
    Ok(name)
}

/// The name of the job under OUT.
pub fn job_name(alloc: Global, out: &str) -> Result<String, AllocError>
    requires { length out.now ≤ 180 }
    ensures name { IfOk result (λ name. string_bytes name ≡ job_file out.now) }
    ensures short { IfOk result (λ name. string_len name ≤ 200) }
{
    let name = format!(in alloc; "{out}.job")?;
    Ok(name)
}
