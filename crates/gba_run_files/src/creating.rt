//! The files of a run are made empty.

ghost use Rattle.std.specs.Prelude.{◌≡◌, ◌≤◌, ◌++◌, ℕ, List, IfSome, length, map, option_map, string_bytes, string_len};
ghost use Rattle.gba_command.specs.Views.{output_value, write_end};
ghost use Rattle.gba_command.specs.Writing.{PerformsAll, creation};
ghost use Rattle.gba_joblog.specs.Views.{console_value};
ghost use Rattle.gba_joblog.specs.declared.outputs.PerKind.{PerKind};
ghost use Rattle.gba_run_files.specs.Outputs.{console_outputs, last_output, output_if, outputs_of};
ghost use Rattle.gba_run_files.specs.Views.{names_value};

use crate::names::Names;
use gba_command::{OutputFile, WriteStop, create, create_files};
use gba_joblog::{JobConsole, KINDS};
use gba_store::Sink;

/// Makes the file of an output empty, where it is asked for.
fn create_if<O: Sink>(out: &mut O, asked: bool, name: &String) -> Result<(), WriteStop>
    requires { string_len name.now ≤ 200 }
    ensures { (bytes : List ℕ) → PerformsAll O.Tells (map creation (output_if asked (string_bytes name.now) bytes))
        (O.state out.old) (O.state out.new) (write_end result) }
{
    if asked {
        create(out, name.as_str())
    } else {
        Ok(())
    }
}

/// Makes the files of a console's outputs empty.
fn create_console<O: Sink>(
    out: &mut O,
    names: &Names,
    console: &JobConsole,
) -> Result<(), WriteStop>
    ensures { (files : PerKind (List ℕ)) → PerformsAll O.Tells
        (map creation (console_outputs (names_value names.now) (console_value console.now) files))
        (O.state out.old) (O.state out.new) (write_end result) }
{
    for kind in KINDS {
        create_if(out, console.asks_for(kind), names.each.at(kind))?;
    }
    Ok(())
}

/// Makes the files of all consoles' outputs empty.
fn create_outputs<O: Sink>(
    out: &mut O,
    names: &[Names],
    consoles: &[JobConsole],
) -> Result<(), WriteStop>
    requires { length names.now ≡ length consoles.now }
    ensures { (files : List (PerKind (List ℕ))) → length files ≡ length consoles.now → PerformsAll O.Tells
        (map creation (outputs_of (map names_value names.now) (map console_value consoles.now) files))
        (O.state out.old) (O.state out.new) (write_end result) }
{
    for player in 0..consoles.len() {
        create_console(out, &names[player], &consoles[player])?;
    }
    Ok(())
}

/// Makes the last file of a run empty, where there is one.
fn create_last<O: Sink>(out: &mut O, name: Option<&str>) -> Result<(), WriteStop>
    requires { IfSome name (λ name. length name.now ≤ 200) }
    ensures { (bytes : List ℕ)
        → PerformsAll O.Tells (map creation (last_output (option_map (λ name. name.now) name.entry) bytes))
        (O.state out.old) (O.state out.new) (write_end result) }
{
    match name {
        Some(name) => create(out, name),
        None => Ok(()),
    }
}

/// Makes all files of a run empty: those that come before its own, those of its outputs, and the last one, where
/// there is one.
pub(crate) fn create_all<O: Sink>(
    out: &mut O,
    first: &[OutputFile],
    names: &[Names],
    consoles: &[JobConsole],
    last: Option<&str>,
) -> Result<(), WriteStop>
    requires names { length names.now ≡ length consoles.now }
    requires short { IfSome last (λ name. length name.now ≤ 200) }
    ensures { (files : List (PerKind (List ℕ))) (bytes : List ℕ) → length files ≡ length consoles.now
        → PerformsAll O.Tells (map creation (map output_value first.now
        ++ (outputs_of (map names_value names.now) (map console_value consoles.now) files
        ++ last_output (option_map (λ name. name.now) last.entry) bytes)))
        (O.state out.old) (O.state out.new) (write_end result) }
{
    create_files(out, first)?;
    create_outputs(out, names, consoles)?;
    create_last(out, last)
}
