//! An image is read and listed.

ghost use Rattle.std.specs.Prelude.{◌≡◌, ◌≤◌, IfOk, length};
ghost use Rattle.gba_command.specs.Reading.{GoesTo};
ghost use Rattle.gba_command.specs.Views.{Agrees, bytes_value, end_of, file_words_value, run_value};
ghost use Rattle.gba_command.specs.Words.{AreFileWords};
ghost use Rattle.gba_translate.specs.Translation.{image_plan, listed, listing_plan};

use crate::files::write_one;
use gba_command::{Cause, FileWords, Outputs, Refusal, name_in_report, read_file};
use gba_dis::{Set, disassemble};
use gba_image::{ImageError, LONGEST_CARTRIDGE};
use gba_store::Store;
use gba_terms::NoMemory;
use std::alloc::Global;

/// Reads an image of at most 33,554,432 bytes.
fn read_image<S: Store>(alloc: Global, store: &mut S, name: &str) -> Result<Vec<u8>, Refusal>
    requires { length name.now ≤ 200 }
    ensures goes { GoesTo S.gives (image_plan name.now) store.old store.new
        (end_of bytes_value result) }
    ensures short { IfOk result (λ image. length image.items ≤ 33554432) }
{
    let long = Cause::Image(name_in_report(name), ImageError::TooLong);
    read_file(alloc, store, name, LONGEST_CARTRIDGE as u64, long)
}

/// Lists an image, and makes what is written.
fn list_bytes(alloc: Global, to: &str, image: &[u8], set: Set) -> Result<Outputs, NoMemory>
    requires name { length to.now ≤ 180 }
    requires short { length image.now ≤ 33554432 }
    ensures { IfOk result (λ outputs. run_value outputs ≡ listed to.now set image.now) }
{
    let text = disassemble(alloc, image, set)?;
    let outputs = write_one(alloc, to, text, b"dis")?;
    Ok(outputs)
}

/// Reads an image and lists it as code from address 0: what is written is the file of its listing, and the summary
/// `dis N` with the number of the listing's bytes. An image of more than 33,554,432 bytes is refused as `TooLong`; no
/// other test is made.
pub fn list_image<S: Store>(
    alloc: Global,
    store: &mut S,
    words: &FileWords<'_>,
    set: Set,
) -> Result<Outputs, Refusal>
    requires { AreFileWords (file_words_value words.now) }
    ensures goes { GoesTo S.gives
        (listing_plan set (file_words_value words.now)) store.old store.new (end_of run_value result) }
{
    let image = read_image(alloc, store, words.from)?;
    match list_bytes(alloc, words.to, image.as_slice(), set) {
        Ok(outputs) => Ok(outputs),
        Err(_) => Err(Refusal::NoMemory),
    }
}
