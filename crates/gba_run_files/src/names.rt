//! The names of a console's outputs.

ghost use Rattle.std.specs.Prelude.{◌≤◌, string_len};
ghost use Rattle.gba_joblog.specs.Outputs.{EachKind};

use gba_joblog::PerKind;

/// The names of a console's outputs.
#[derive(Drop)]
pub(crate) struct Names {
    pub(crate) each: PerKind<String>,
    ghost short: { EachKind (λ name. string_len name ≤ 200) each },
}
