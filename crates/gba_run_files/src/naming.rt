//! The names of the files that a run writes.

ghost use Rattle.std.specs.Prelude.{◌≡◌, ◌≤◌, ◌<◌, ◌++◌, ◌∷◌, [], IfOk, OnOk, length, map, string_bytes, string_len};
ghost use Rattle.gba_joblog.specs.Clash.{log_file, output_file};
ghost use Rattle.gba_run_files.specs.Frozen.{frozen_name as frozen_name_of};
ghost use Rattle.gba_run_files.specs.Names.{names_from, names_of};
ghost use Rattle.gba_run_files.specs.Views.{names_value};

use crate::names::Names;
use gba_joblog::{OutKind, PerKind};
use std::alloc::{AllocError, Global};

/// The name of a console's output under OUT.
fn name_of(alloc: Global, out: &str, player: usize, kind: OutKind) -> Result<String, AllocError>
    requires { (length out.now ≤ 180) × (player < 4) }
    ensures name { IfOk result (λ name. string_bytes name ≡ output_file out.now player kind) }
    ensures short { IfOk result (λ name. string_len name ≤ 200) }
{
    let kind = kind.name();
    let name = format!(in alloc; "{out}.{player}.{kind}")?;
    Ok(name)
}

/// The name of the log under OUT.
pub(crate) fn log_name(alloc: Global, out: &str) -> Result<String, AllocError>
    requires { length out.now ≤ 180 }
    ensures name { IfOk result (λ name. string_bytes name ≡ log_file out.now) }
    ensures short { IfOk result (λ name. string_len name ≤ 200) }
{
    let name = format!(in alloc; "{out}.log")?;
    Ok(name)
}

/// The name of the frozen file under OUT.
pub fn frozen_name(alloc: Global, out: &str) -> Result<String, AllocError>
    requires { length out.now ≤ 180 }
    ensures name { IfOk result (λ name. string_bytes name ≡ frozen_name_of out.now) }
    ensures short { IfOk result (λ name. string_len name ≤ 200) }
{
    let name = format!(in alloc; "{out}.frozen")?;
    Ok(name)
}

/// The names of a console's outputs under OUT.
fn names_of_console(alloc: Global, out: &str, player: usize) -> Result<Names, AllocError>
    requires { (length out.now ≤ 180) × (player < 4) }
    ensures { IfOk result (λ names. names_value names ≡ names_of out.now player) }
{
    let frames = name_of(alloc, out, player, OutKind::Frames)?;
    let samples = name_of(alloc, out, player, OutKind::Samples)?;
    let words = name_of(alloc, out, player, OutKind::Words)?;
    let state = name_of(alloc, out, player, OutKind::State)?;
    let save = name_of(alloc, out, player, OutKind::Save)?;
    let each = PerKind {
        frames,
        samples,
        words,
        state,
        save,
    };
    Ok(Names { each })
}

/// Adds the names of one more console, as far as there is memory.
fn keep(all: &mut Vec<Names>, names: Names) -> Result<(), AllocError>
    ensures { OnOk result (all.new.items ≡ all.old.items ++ names ∷ []) }
{
    match all.push(names) {
        Ok(()) => Ok(()),
        Err(_) => Err(AllocError),
    }
}

/// The names of the outputs of so many consoles under OUT.
pub(crate) fn all_names(alloc: Global, out: &str, count: usize) -> Result<Vec<Names>, AllocError>
    requires { (length out.now ≤ 180) × (count ≤ 4) }
    ensures names { IfOk result (λ names. map names_value names.items ≡ names_from out.now 0 count) }
{
    let mut all = Vec::new(alloc);
    for player in 0..count {
        let names = names_of_console(alloc, out, player)?;
        keep(&mut all, names)?;
    }
    Ok(all)
}
