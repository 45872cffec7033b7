//! What is read for a console.

use gba_image::ConsoleImages;
use gba_joblog::KeyChange;

/// The SHA-256 digests of a console's image files: a cartridge's and a save's where the console has them.
#[derive(Clone, Copy, Debug, PartialEq, Eq)]
pub struct ImageDigests {
    pub bios: [u8; 32],
    pub cart: Option<[u8; 32]>,
    pub save: Option<[u8; 32]>,
}

/// What is read for a console: its images, the digests of their files, and the changes of its keys.
#[derive(Drop)]
pub struct Inputs {
    pub images: ConsoleImages,
    pub digests: ImageDigests,
    /// Those of the console's key file where the job names one, else those of the job's own lines; in their order.
    pub changes: Vec<KeyChange>,
}

/// An image that passed its check, and the SHA-256 digest of its file.
#[derive(Drop)]
pub(crate) struct Digested<T> {
    pub(crate) image: T,
    pub(crate) digest: [u8; 32],
}
