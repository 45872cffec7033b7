//! Images: each is read, checked, and then compared with the digest that the job states.

ghost use Rattle.std.specs.Prelude.{◌≡◌, ◌≤◌, IfSome, IsSome, length, option_map, string_bytes};
ghost use Rattle.gba_command.specs.Reading.{GoesTo};
ghost use Rattle.gba_command.specs.Views.{Agrees, end_of};
ghost use Rattle.gba_joblog.specs.Soundness.{IsFile};
ghost use Rattle.gba_joblog.specs.Views.{file_value};
ghost use Rattle.gba_inputs.specs.InputsPlan.{accepted, any_cart_plan, any_save_plan, bios_form, bios_plan, cart_form, cart_plan, compared, save_form, save_plan};
ghost use Rattle.gba_inputs.specs.Views.{digested_value};

use crate::inputs::Digested;
use gba_command::{Cause, Refusal, name_in_report, read_file};
use gba_image::{Backup, Bios, Cartridge, ImageError, LONGEST_CARTRIDGE, Save};
use gba_joblog::{FileLine, digest_of};
use gba_store::Store;
use std::alloc::Global;

/// The most bytes of a BIOS.
const MOST_OF_BIOS: u64 = 16_384;

/// A file's name, which has at most 200 bytes.
pub(crate) fn name_of(file: &FileLine) -> &str
    requires { IsFile (file_value file.now) }
    ensures name { result.now ≡ string_bytes file.now.name }
    ensures short { length result.now ≤ 200 }
{
    file.name.as_str()
}

/// The digest of a file's bytes, which is the one that its line states, if it states one.
pub(crate) fn compare(file: &FileLine, bytes: &[u8]) -> Result<[u8; 32], Refusal>
    requires { IsFile (file_value file.now) }
    ensures { Agrees (λ digest. digest) (compared (file_value file.now) bytes.now) result }
{
    let got = digest_of(bytes);
    if let Some(stated) = file.digest {
        if stated.as_slice() != got.as_slice() {
            let name = name_in_report(name_of(file));
            return Err(Refusal::Refused(Cause::Digest { name, stated, got }));
        }
    }
    Ok(got)
}

fn judge_bios(file: &FileLine, bytes: Vec<u8>) -> Result<Digested<Bios>, Refusal>
    requires { IsFile (file_value file.now) }
    ensures { Agrees digested_value (accepted bios_form (file_value file.now) bytes.items) result }
{
    let image = match Bios::check(bytes) {
        Ok(image) => image,
        Err(error) => return Err(Refusal::Refused(Cause::Image(
            name_in_report(name_of(file)),
            error,
        ))),
    };
    let digest = compare(file, image.bytes())?;
    Ok(Digested { image, digest })
}

fn judge_cartridge(file: &FileLine, bytes: Vec<u8>) -> Result<Digested<Cartridge>, Refusal>
    requires { IsFile (file_value file.now) }
    ensures { Agrees digested_value (accepted cart_form (file_value file.now) bytes.items) result }
{
    let image = match Cartridge::check(bytes) {
        Ok(image) => image,
        Err(error) => return Err(Refusal::Refused(Cause::Image(
            name_in_report(name_of(file)),
            error,
        ))),
    };
    let digest = compare(file, image.bytes())?;
    Ok(Digested { image, digest })
}

fn judge_save(file: &FileLine, bytes: Vec<u8>, backup: Backup) -> Result<Digested<Save>, Refusal>
    requires { IsFile (file_value file.now) }
    ensures { Agrees digested_value (accepted (save_form backup) (file_value file.now) bytes.items) result }
{
    let image = match Save::check(bytes, backup) {
        Ok(image) => image,
        Err(error) => return Err(Refusal::Refused(Cause::Image(
            name_in_report(name_of(file)),
            error,
        ))),
    };
    let digest = compare(file, image.bytes())?;
    Ok(Digested { image, digest })
}

/// Reads a BIOS.
pub(crate) fn read_bios<S: Store>(
    alloc: Global,
    store: &mut S,
    file: &FileLine,
) -> Result<Digested<Bios>, Refusal>
    requires { IsFile (file_value file.now) }
    ensures { GoesTo S.gives (bios_plan (file_value file.now)) store.old
        store.new (end_of digested_value result) }
{
    let name = name_of(file);
    let long = Cause::Image(name_in_report(name), ImageError::BiosLength);
    let bytes = read_file(alloc, store, name, MOST_OF_BIOS, long)?;
    judge_bios(file, bytes)
}

fn read_cartridge<S: Store>(
    alloc: Global,
    store: &mut S,
    file: &FileLine,
) -> Result<Digested<Cartridge>, Refusal>
    requires { IsFile (file_value file.now) }
    ensures { GoesTo S.gives (cart_plan (file_value file.now)) store.old
        store.new (end_of digested_value result) }
{
    let name = name_of(file);
    let long = Cause::Image(name_in_report(name), ImageError::TooLong);
    let bytes = read_file(alloc, store, name, LONGEST_CARTRIDGE as u64, long)?;
    judge_cartridge(file, bytes)
}

fn read_save<S: Store>(
    alloc: Global,
    store: &mut S,
    file: &FileLine,
    backup: Backup,
) -> Result<Digested<Save>, Refusal>
    requires { IsFile (file_value file.now) }
    ensures { GoesTo S.gives (save_plan backup (file_value file.now)) store.old
        store.new (end_of digested_value result) }
{
    let name = name_of(file);
    let long = Cause::Image(name_in_report(name), ImageError::SaveLength);
    let bytes = read_file(alloc, store, name, backup.length() as u64, long)?;
    judge_save(file, bytes, backup)
}

/// Reads the cartridge that a console may have.
pub(crate) fn read_any_cartridge<S: Store>(
    alloc: Global,
    store: &mut S,
    file: &Option<FileLine>,
) -> Result<Option<Digested<Cartridge>>, Refusal>
    requires { IfSome (option_map file_value file.now) IsFile }
    ensures { GoesTo S.gives
        (any_cart_plan (option_map file_value file.now)) store.old store.new
        (end_of (option_map digested_value) result) }
{
    match file {
        Some(file) => {
            let cart = read_cartridge(alloc, store, file)?;
            Ok(Some(cart))
        }
        None => Ok(None),
    }
}

/// Reads the save that a console may have, for what its cartridge keeps it in.
pub(crate) fn read_any_save<S: Store>(
    alloc: Global,
    store: &mut S,
    file: &Option<FileLine>,
    backup: Backup,
) -> Result<Option<Digested<Save>>, Refusal>
    requires { IfSome (option_map file_value file.now) IsFile }
    ensures { GoesTo S.gives (any_save_plan backup (option_map file_value file.now)) store.old store.new
        (end_of (option_map digested_value) result) }
{
    match file {
        Some(file) => {
            let save = read_save(alloc, store, file, backup)?;
            Ok(Some(save))
        }
        None => Ok(None),
    }
}
