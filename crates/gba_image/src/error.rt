//! Why an image is refused.

use std::error::Error;
use std::fmt;

/// Why an image is refused. Of several reasons the first in this order is given.
#[derive(Clone, Copy, Debug, PartialEq, Eq)]
pub enum ImageError {
    /// A BIOS that doesn't have 16,384 bytes.
    BiosLength,
    /// A cartridge of fewer than 192 bytes, which has no whole header.
    TooShort,
    /// A cartridge of more than 33,554,432 bytes.
    TooLong,
    /// A cartridge whose byte B2h isn't 96h.
    FixedByte,
    /// A cartridge whose byte BDh isn't 0 minus the bytes A0h to BCh, minus 19h, modulo 256.
    HeaderCheck,
    /// A save that doesn't have the bytes of its backup: 32,768, 65,536 or 131,072.
    SaveLength,
}

impl ImageError {
    ghost use Rattle.std.specs.Prelude.{◌≡◌};
    ghost use Rattle.gba_image.specs.Names.{error_name};

    /// The refusal's name in reports, as `HeaderCheck`.
    pub fn name(self) -> &'static str
        ensures { result.now ≡ error_name self }
    {
        match self {
            ImageError::BiosLength => "BiosLength",
            ImageError::TooShort => "TooShort",
            ImageError::TooLong => "TooLong",
            ImageError::FixedByte => "FixedByte",
            ImageError::HeaderCheck => "HeaderCheck",
            ImageError::SaveLength => "SaveLength",
        }
    }
}

impl fmt::Display for ImageError {
    ghost use Rattle.std.specs.Prelude.{Some};
    ghost use Rattle.gba_image.specs.Names.{error_name};

    ghost output = { λ e. Some (error_name e) };

    fn fmt<W: fmt::Write>(&self, f: &mut fmt::Formatter<W>) -> fmt::Result {
        f.write_str(self.name())
    }
}

impl Error for ImageError {}
