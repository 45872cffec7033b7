//! The inputs of consoles, one console after another.

ghost use Rattle.std.specs.Prelude.{◌≡◌, ◌++◌, ◌∷◌, [], IfErr, IfOk, OnOk, map, option_map};
ghost use Rattle.std.specs.List.{All, AllZip};
ghost use Rattle.gba_command.specs.Reading.{GoesTo};
ghost use Rattle.gba_command.specs.Views.{end_of};
ghost use Rattle.gba_joblog.specs.Soundness.{IsConsole};
ghost use Rattle.gba_command.specs.declared.refusal.Refusal.TheVariants.{NoMemory};
ghost use Rattle.gba_joblog.specs.Views.{console_value};
ghost use Rattle.gba_inputs.specs.InputsPlan.{console_plan, inputs_of as inputs_of_all, inputs_plan};
ghost use Rattle.gba_inputs.specs.Law.{AreInputs};
ghost use Rattle.gba_inputs.specs.Views.{all_inputs_value, digested_value, inputs_value};

use crate::images::{read_any_cartridge, read_any_save, read_bios};
use crate::inputs::{Digested, ImageDigests, Inputs};
use crate::keys::read_any_keys;
use gba_command::Refusal;
use gba_image::{Backup, Bios, Cartridge, ConsoleImages, Save};
use gba_joblog::{JobConsole, KeyChange};
use gba_store::Store;
use std::alloc::Global;

/// What was read for a console, in one.
fn inputs_of(
    backup: Backup,
    bios: Digested<Bios>,
    cart: Option<Digested<Cartridge>>,
    save: Option<Digested<Save>>,
    changes: Vec<KeyChange>,
) -> Inputs
    ensures { inputs_value result
        ≡ inputs_of_all backup (digested_value bios) (option_map digested_value cart) (option_map digested_value save)
        changes.items }
{
    let bios_digest = bios.digest;
    let (cart, cart_digest) = match cart {
        Some(read) => {
            let digest = read.digest;
            (Some(read.image), Some(digest))
        }
        None => (None, None),
    };
    let (save, save_digest) = match save {
        Some(read) => {
            let digest = read.digest;
            (Some(read.image), Some(digest))
        }
        None => (None, None),
    };
    Inputs {
        images: ConsoleImages {
            bios: bios.image,
            cart,
            save,
            backup,
        },
        digests: ImageDigests {
            bios: bios_digest,
            cart: cart_digest,
            save: save_digest,
        },
        changes,
    }
}

/// Reads the inputs of a console.
fn read_console<S: Store>(
    alloc: Global,
    store: &mut S,
    console: &JobConsole,
) -> Result<Inputs, Refusal>
    requires { IsConsole (console_value console.now) }
    ensures { GoesTo S.gives (console_plan (console_value console.now))
        store.old store.new (end_of inputs_value result) }
{
    let bios = read_bios(alloc, store, &console.bios)?;
    let cart = read_any_cartridge(alloc, store, &console.cart)?;
    let save = read_any_save(alloc, store, &console.save, console.backup)?;
    let changes = read_any_keys(alloc, store, console.changes.as_slice(), &console.keys)?;
    Ok(inputs_of(console.backup, bios, cart, save, changes))
}

fn keep(all: &mut Vec<Inputs>, inputs: Inputs) -> Result<(), Refusal>
    ensures kept { OnOk result (all.new.items ≡ all.old.items ++ inputs ∷ []) }
    ensures memory { IfErr result (λ refusal. refusal ≡ NoMemory) }
{
    match all.push(inputs) {
        Ok(()) => Ok(()),
        Err(_) => Err(Refusal::NoMemory),
    }
}

/// Reads the inputs of consoles, one after another.
fn read_all<S: Store>(
    alloc: Global,
    store: &mut S,
    consoles: &[JobConsole],
) -> Result<Vec<Inputs>, Refusal>
    requires { All IsConsole (map console_value consoles.now) }
    ensures { GoesTo S.gives (inputs_plan (map console_value consoles.now))
        store.old store.new (end_of all_inputs_value result) }
{
    let mut all = Vec::new(alloc);
    for console in consoles {
        let inputs = read_console(alloc, store, console)?;
        keep(&mut all, inputs)?;
    }
    Ok(all)
}

/// Reads the inputs of a job's consoles, in their order: for each the BIOS, the cartridge, the save and the key file.
/// Each is checked, and then compared with the digest that the job states, before the next is read. What a console has
/// no file for isn't read; its key changes are then the job's own.
pub fn read_inputs<S: Store>(
    alloc: Global,
    store: &mut S,
    consoles: &[JobConsole],
) -> Result<Vec<Inputs>, Refusal>
    requires { All IsConsole (map console_value consoles.now) }
    ensures goes { GoesTo S.gives
        (inputs_plan (map console_value consoles.now)) store.old store.new (end_of all_inputs_value result) }
    ensures sound { IfOk result
        (λ inputs. AllZip AreInputs (map console_value consoles.now) (all_inputs_value inputs)) }
{
    read_all(alloc, store, consoles)
}
