//! Which images are accepted.

use gba_image::{Backup, Bios, Cartridge, ImageError, Save};
use std::alloc::Global;
use std::fmt::Debug;
use std::process::Abort;
use std::test::Fail;

/// So many zeros, but for these bytes.
pub(crate) fn image<R: Abort>(
    rt: &R,
    alloc: Global,
    length: usize,
    bytes: &[(usize, u8)],
) -> Result<Vec<u8>, Fail> {
    let mut image = vec![in alloc; 0; length]?;
    for (place, byte) in bytes {
        assert!(rt; *place < image.len());
        image[*place] = *byte;
    }
    Ok(image)
}

/// The header of a cartridge of zeros.
pub(crate) const HEADER: [(usize, u8); 2] = [(0xB2, 0x96), (0xBD, 0x51)];

/// The last byte of what a BIOS lends, and of what it gives.
fn last_of_bios(bios: Bios) -> (Option<u8>, Option<u8>) {
    let lent = bios.bytes().last().copied();
    (lent, bios.into_bytes().last().copied())
}

/// The same of a save.
fn last_of_save(save: Save) -> (Option<u8>, Option<u8>) {
    let lent = save.bytes().last().copied();
    (lent, save.into_bytes().last().copied())
}

/// Byte B2h of what a cartridge lends, and how many bytes it gives.
fn fixed_byte_and_length(cart: Cartridge) -> (Option<u8>, usize) {
    let lent = cart.bytes().get(0xB2).copied();
    (lent, cart.into_bytes().len())
}

/// It is this.
fn is<R: Abort, T: Copy + PartialEq + Debug>(rt: &R, case: &str, got: T, wanted: T) {
    assert_eq!(rt; got, wanted, "{case}");
}

/// How long a BIOS is, and why it is refused.
static BIOSES: [(usize, Option<ImageError>); 4] = [
    (0, Some(ImageError::BiosLength)),
    (16_383, Some(ImageError::BiosLength)),
    (16_384, None),
    (16_385, Some(ImageError::BiosLength)),
];

#[test]
fn a_bios_has_its_length(rt: HostRuntime) -> Result<(), Fail> {
    for &(length, fault) in &BIOSES {
        let bios = Bios::check(image(&rt, rt.alloc(), length, &[])?);
        is(&rt, "a BIOS", (length, bios.err()), (length, fault));
    }
    Ok(())
}

/// What a save is for, how long it is, and why it is refused.
static SAVES: [(Backup, usize, Option<ImageError>); 11] = [
    (Backup::Sram, 0, Some(ImageError::SaveLength)),
    (Backup::Sram, 32_767, Some(ImageError::SaveLength)),
    (Backup::Sram, 32_768, None),
    (Backup::Sram, 32_769, Some(ImageError::SaveLength)),
    (Backup::Sram, 65_536, Some(ImageError::SaveLength)),
    (Backup::Flash64, 32_768, Some(ImageError::SaveLength)),
    (Backup::Flash64, 65_536, None),
    (Backup::Flash64, 131_072, Some(ImageError::SaveLength)),
    (Backup::Flash128, 65_536, Some(ImageError::SaveLength)),
    (Backup::Flash128, 131_071, Some(ImageError::SaveLength)),
    (Backup::Flash128, 131_072, None),
];

#[test]
fn a_save_has_its_length(rt: HostRuntime) -> Result<(), Fail> {
    for &(backup, length, fault) in &SAVES {
        let save = Save::check(image(&rt, rt.alloc(), length, &[])?, backup);
        is(
            &rt,
            "a save",
            (backup, length, save.err()),
            (backup, length, fault),
        );
    }
    Ok(())
}

/// A BIOS and a save lend and give their bytes.
#[test]
fn images_keep_their_last_byte(rt: HostRuntime) -> Result<(), Fail> {
    let bios = Bios::check(image(&rt, rt.alloc(), 16_384, &[(16_383, 7)])?)?;
    is(&rt, "a BIOS", last_of_bios(bios), (Some(7), Some(7)));
    let bytes = image(&rt, rt.alloc(), 32_768, &[(32_767, 7)])?;
    let save = Save::check(bytes, Backup::Sram)?;
    is(&rt, "a save", last_of_save(save), (Some(7), Some(7)));
    Ok(())
}

/// A cartridge lends and gives its bytes.
#[test]
fn a_cartridge_keeps_its_bytes(rt: HostRuntime) -> Result<(), Fail> {
    let cart = Cartridge::check(image(&rt, rt.alloc(), 192, &HEADER)?)?;
    is(
        &rt,
        "a cartridge",
        fixed_byte_and_length(cart),
        (Some(0x96), 192),
    );
    Ok(())
}

/// A row: how long a cartridge is, its bytes that aren't 0, and the first reason to refuse it.
type Row<'a> = (usize, &'a [(usize, u8)], Option<ImageError>);

static ROWS: [Row<'static>; 13] = [
    (0, &[], Some(ImageError::TooShort)),
    (191, &HEADER, Some(ImageError::TooShort)),
    (192, &[], Some(ImageError::FixedByte)),
    (192, &[(0xBD, 0x51)], Some(ImageError::FixedByte)),
    (192, &[(0xBD, 0xE7)], Some(ImageError::FixedByte)),
    (192, &[(0xB2, 0x96)], Some(ImageError::HeaderCheck)),
    (
        192,
        &[(0xB2, 0x96), (0xBD, 0x52)],
        Some(ImageError::HeaderCheck),
    ),
    (
        192,
        &[(0xA0, 1), (0xB2, 0x96), (0xBC, 2), (0xBD, 0x4E)],
        None,
    ),
    (
        192,
        &[(0x9F, 1), (0xB2, 0x96), (0xBE, 2), (0xBD, 0x51)],
        None,
    ),
    (192, &HEADER, None),
    (193, &HEADER, None),
    (33_554_432, &HEADER, None),
    (33_554_433, &[], Some(ImageError::TooLong)),
];

#[test]
fn a_cartridge_is_refused_for_its_first_fault(rt: HostRuntime) -> Result<(), Fail> {
    for &(length, bytes, fault) in &ROWS {
        let cart = Cartridge::check(image(&rt, rt.alloc(), length, bytes)?);
        assert_eq!(rt; cart.err(), fault, "{length} bytes, {bytes:?}");
    }
    Ok(())
}

/// The refusals' names in reports.
#[test]
fn refusals_have_names(rt: HostRuntime) -> Result<(), Fail> {
    for &(error, name) in &[
        (ImageError::BiosLength, "BiosLength"),
        (ImageError::TooShort, "TooShort"),
        (ImageError::TooLong, "TooLong"),
        (ImageError::FixedByte, "FixedByte"),
        (ImageError::HeaderCheck, "HeaderCheck"),
        (ImageError::SaveLength, "SaveLength"),
    ] {
        assert_eq!(rt; error.name(), name);
        assert_eq!(rt; format!(in rt.alloc(); "{error}")?.as_str(), name);
    }
    Ok(())
}
