//! The numbers of a board.

ghost use Rattle.std.specs.Prelude.{◌≡◌, ◌<◌, true};
ghost use Rattle.gba_numbers.specs.Fields.{is_board_field};
ghost use Rattle.link_node.specs.Packing.{mode_number as number_of_mode};
ghost use Rattle.gba_loose.specs.Numbers.{board_number, tone_part as tone_part_of};

use gba_io::Core;
use gba_numbers::BoardField;
use gba_psg::Tone;
use link_node::LinkMode;

fn mode_number(mode: LinkMode) -> u64
    ensures { result ≡ number_of_mode mode }
{
    match mode {
        LinkMode::Normal8 => 0,
        LinkMode::Normal32 => 1,
        LinkMode::Multi => 2,
        LinkMode::Other => 3,
    }
}

/// A part of a tone: on, place, wait, left, volume, fade, sweep or shadow, from 0.
fn tone_part(part: u32, tone: Tone) -> u64
    ensures { result ≡ tone_part_of part tone }
{
    match part {
        0 => u64::from(tone.on),
        1 => u64::from(tone.place),
        2 => u64::from(tone.wait),
        3 => u64::from(tone.left),
        4 => u64::from(tone.volume),
        5 => u64::from(tone.fade),
        6 => u64::from(tone.sweep),
        _ => u64::from(tone.shadow),
    }
}

/// A number of a board, as the state file and a frozen file have it.
#[tactic(auto, unfolding(crate::specs::Numbers::board_number, gba_numbers::specs::Fields::is_board_field))]
pub fn number_of(core: &Core, field: BoardField) -> u64
    requires { is_board_field field ≡ true }
    ensures { result ≡ board_number field core.now }
{
    let devices = core.devices();
    let set = devices.set();
    match field {
        BoardField::Halted => u64::from(set.halted()),
        BoardField::TimerCounter(timer) => u64::from(devices.timer(timer).counter),
        BoardField::TimerReload(timer) => u64::from(devices.timer(timer).reload),
        BoardField::TimerControl(timer) => u64::from(devices.timer(timer).control),
        BoardField::TimerPhase(timer) => u64::from(devices.timer(timer).phase),
        BoardField::DmaActive(channel) => u64::from(set.channel(channel).active),
        BoardField::DmaFirst(channel) => u64::from(set.channel(channel).first),
        BoardField::DmaSource(channel) => u64::from(set.channel(channel).inner_source),
        BoardField::DmaTarget(channel) => u64::from(set.channel(channel).inner_target),
        BoardField::DmaLeft(channel) => u64::from(set.channel(channel).left),
        BoardField::QueueCurrent(queue) => u64::from(set.queue_current(queue)),
        BoardField::QueueLength(queue) => set.queue(queue).len() as u64,
        BoardField::Sequencer => u64::from(devices.sequencer()),
        BoardField::Tone { tone, part } => tone_part(part, devices.tone(tone - 1)),
        BoardField::WaveByte { bank, place } => u64::from(devices.wave_bank(bank)[place as usize]),
        BoardField::Line => u64::from(devices.place().line),
        BoardField::Dot => u64::from(devices.place().dot),
        BoardField::ReferenceX(background) => u64::from(set.reference(background).x),
        BoardField::ReferenceY(background) => u64::from(set.reference(background).y),
        BoardField::SerialMode => mode_number(core.serial().mode()),
        BoardField::SerialRunning => u64::from(core.serial().running()),
        BoardField::SerialStarted => u64::from(core.serial().started()),
        BoardField::SerialEnd => core.serial().end(),
        BoardField::SerialGot => u64::from(core.serial().got()),
        BoardField::SerialSent => u64::from(core.serial().sent()),
        BoardField::SerialWord => u64::from(core.serial().word()),
        BoardField::Known(player) => mode_number(core.serial().known(player)),
    }
}
