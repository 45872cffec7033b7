//! The digests of outputs: each is taken once, compared with the stated one, and stated in the log.

ghost use Rattle.std.specs.Prelude.{◌≡◌, ◌≤◌, ◌<◌, Bool, Some, is_some, length, map, option_map, slice_get, string_bytes, string_len, true};
ghost use Rattle.gba_command.specs.Views.{cause_value};
ghost use Rattle.gba_console.specs.Machine.{Machine};
ghost use Rattle.gba_inputs.specs.Filled.{with_outputs};
ghost use Rattle.gba_joblog.specs.Outputs.{at_kind};
ghost use Rattle.gba_joblog.specs.Views.{console_value};
ghost use Rattle.gba_joblog.specs.declared.outputs.PerKind.{PerKind};
ghost use Rattle.gba_session.specs.Files.{all_files, asks_of, files_of, output_bytes};
ghost use Rattle.gba_session.specs.Session.{is_over, whole_cut};
ghost use Rattle.gba_run_files.specs.Outputs.{all_outs, console_difference, difference_of, digest_differs, or_later as or_later_of, outs_of, output_differs, stated_out};
ghost use Rattle.gba_run_files.specs.Views.{names_value};

use crate::names::Names;
use gba_command::{Cause, name_in_report};
use gba_joblog::{JobConsole, KINDS, OutKind, OutLine};
use gba_session::Digests;

/// What comes of an output's digest: its line in the log, and the refusal where another one is stated.
#[derive(Drop)]
struct Judged {
    out: Option<OutLine>,
    cause: Option<Cause>,
}

/// The refusal of an output whose digest isn't the stated one.
fn difference(name: &str, stated: Option<[u8; 32]>, got: [u8; 32]) -> Option<Cause>
    requires { length name.now ≤ 200 }
    ensures { option_map cause_value result ≡ digest_differs name.now stated got }
{
    if let Some(stated) = stated {
        if stated.as_slice() != got.as_slice() {
            let name = name_in_report(name);
            return Some(Cause::Digest { name, stated, got });
        }
    }
    None
}

/// Takes the digest of an output that may be asked for.
fn judge(
    digests: &Digests,
    player: usize,
    kind: OutKind,
    name: &String,
    asked: Option<OutLine>,
) -> Judged
    requires player { player < length digests.now.asks }
    requires asks { (asks : PerKind Bool) → slice_get digests.now.asks player ≡ Some asks
        → at_kind asks kind ≡ is_some asked }
    requires over { is_over digests.now ≡ true }
    requires short { string_len name.now ≤ 200 }
    ensures out { (m : Machine) → slice_get (whole_cut digests.now).consoles player ≡ Some m
        → result.out ≡ stated_out asked (output_bytes kind m) }
    ensures cause { (m : Machine) → slice_get (whole_cut digests.now).consoles player ≡ Some m
        → option_map cause_value result.cause ≡ output_differs (string_bytes name.now) asked (output_bytes kind m) }
{
    match asked {
        Some(asked) => {
            let got = digests.digest(player, kind);
            Judged {
                out: Some(OutLine { digest: Some(got) }),
                cause: difference(name.as_str(), asked.digest, got),
            }
        }
        None => Judged {
            out: None,
            cause: None,
        },
    }
}

/// The first of two refusals.
fn or_later(first: Option<Cause>, later: Option<Cause>) -> Option<Cause>
    ensures { option_map cause_value result
        ≡ or_later_of (option_map cause_value first) (option_map cause_value later) }
{
    match first {
        Some(cause) => Some(cause),
        None => later,
    }
}

/// States the digests of a console's outputs in its lines, and tells the first that isn't the stated one.
#[tactic(auto, unfolding(crate::specs::Outputs::outs_of, crate::specs::Outputs::console_difference))]
fn state_console(
    console: &mut JobConsole,
    names: &Names,
    digests: &Digests,
    player: usize,
) -> Option<Cause>
    requires asks { slice_get digests.now.asks player ≡ Some (asks_of (console_value console.old)) }
    requires over { is_over digests.now ≡ true }
    ensures console { (m : Machine) → slice_get (whole_cut digests.now).consoles player ≡ Some m
        → console_value console.new ≡ record (console_value console.old) {
          outs = outs_of (console_value console.old) (files_of (asks_of (console_value console.old)) m);
        } }
    ensures cause { (m : Machine) → slice_get (whole_cut digests.now).consoles player ≡ Some m
        → option_map cause_value result ≡ console_difference (names_value names.now) (console_value console.old)
        (files_of (asks_of (console_value console.old)) m) }
{
    let asked = console.outs;
    let mut cause = None;
    for kind in KINDS {
        let judged = judge(digests, player, kind, names.each.at(kind), *asked.at(kind));
        console.outs.put(kind, judged.out);
        cause = or_later(cause, judged.cause);
    }
    cause
}

/// States the digests of all consoles' outputs in their lines, and tells the first that isn't the stated one.
pub(crate) fn state_consoles(
    consoles: &mut [JobConsole],
    names: &[Names],
    digests: &Digests,
) -> Option<Cause>
    requires names { length names.now ≡ length consoles.old }
    requires asks { digests.now.asks ≡ map asks_of (map console_value consoles.old) }
    requires over { is_over digests.now ≡ true }
    ensures consoles { map console_value consoles.new ≡ with_outputs (map console_value consoles.old)
        (all_outs (map console_value consoles.old) (all_files digests.now.asks (whole_cut digests.now).consoles)) }
    ensures cause { option_map cause_value result ≡ difference_of (map names_value names.now)
        (map console_value consoles.old) (all_files digests.now.asks (whole_cut digests.now).consoles) }
    ensures many { length (all_files digests.now.asks (whole_cut digests.now).consoles) ≡ length consoles.old }
{
    let mut cause = None;
    for player in 0..digests.players() {
        let later = state_console(&mut consoles[player], &names[player], digests, player);
        cause = or_later(cause, later);
    }
    cause
}
