//! The numbers of a console.

ghost use Rattle.std.specs.Prelude.{◌≡◌, ◌<◌, [], ◌∷◌, true, IfSome, slice_index};
ghost use Rattle.gba_mem.specs.Backups.{flash_machine};
ghost use Rattle.gba_loose.specs.Numbers.{board_number as board_number_of};
ghost use Rattle.gba_numbers.specs.Fields.{is_board_field, is_field, place_of};
ghost use Rattle.gba_numbers.specs.declared.fields.Field.TheVariants.{Board};
ghost use Rattle.gba_frozen_text.specs.Text.{is_printable};
ghost use Rattle.gba_snapshot.specs.Snapshot.{console_number, flash_numbers as flash_numbers_of, numbers_of, state_number as number_of_state};

use gba_console::Console;
use gba_flash::{FlashMachine, FlashState};
use gba_frozen_text::Freezing;
use gba_loose::number_of;
use gba_numbers::laws::have_own_places;
use gba_numbers::{BoardField, Field};
use std::marker::Model;

fn state_number(state: FlashState) -> u64
    ensures { result ≡ number_of_state state }
{
    match state {
        FlashState::Ready => 0,
        FlashState::First => 1,
        FlashState::Second => 2,
        FlashState::Program => 3,
        FlashState::Bank => 4,
    }
}

/// State, armed, identify and bank.
fn flash_numbers(machine: Option<FlashMachine>) -> [u64; 4]
    ensures { result ≡ flash_numbers_of machine }
{
    match machine {
        None => [0, 0, 0, 0],
        Some(machine) => [
            state_number(machine.state),
            u64::from(machine.armed),
            u64::from(machine.identify),
            u64::from(machine.bank),
        ],
    }
}

/// A console that is printed, with the bytes of its wave.
#[derive(Drop)]
pub struct Snapshot<'a> {
    console: &'a Console,
    wave0: [u8; 16],
    wave1: [u8; 16],
}

impl<'a> Model for Snapshot<'a> {
    ghost use Rattle.std.specs.Prelude.{◌≡◌};
    ghost use Rattle.gba_console.specs.Machine.{Machine};

    ghost Value = { Machine };

    ghost view = { λ s. s.console.now };

    ghost invariant = { λ s.
        (s.wave0 ≡ s.console.now.board.core.devices.tones.wave.bank0)
        × (s.wave1 ≡ s.console.now.board.core.devices.tones.wave.bank1) };
}

impl<'a> Snapshot<'a> {
    /// Of a console between two steps.
    pub fn new(console: &'a Console) -> Snapshot<'a>
        ensures { result ≡ console.now }
    {
        let core = &console.board().core;
        Snapshot {
            console,
            wave0: core.devices().wave_bank(0),
            wave1: core.devices().wave_bank(1),
        }
    }

    /// A part of what the flash remembers: its state, whether it is armed, whether it identifies itself, its bank.
    fn flash_part(&self, part: usize) -> u64
        requires { part < 4 }
        ensures { result ≡ slice_index (flash_numbers_of (flash_machine self.now.board.core.memory.backup)) part }
    {
        flash_numbers(self.console.board().core.flash_machine())[part]
    }

    /// A number of the board, which is no byte of the wave.
    #[tactic(auto, unfolding(gba_loose::specs::Numbers::board_number, gba_frozen_text::specs::Text::is_printable, gba_numbers::specs::Fields::is_board_field))]
    fn board_number(&self, field: BoardField) -> u64
        requires { is_board_field field ≡ true }
        ensures number { result ≡ board_number_of field self.now.board.core }
        ensures printable { is_printable (Board field) result ≡ true }
    {
        let core = &self.console.board().core;
        let set = core.devices().set();
        match field {
            BoardField::QueueCurrent(queue) => u64::from(set.queue_current(queue)),
            BoardField::ReferenceX(background) => u64::from(set.reference(background).x),
            BoardField::ReferenceY(background) => u64::from(set.reference(background).y),
            _ => number_of(core, field),
        }
    }

    /// A number of the console, which is no byte of a queue or of the wave.
    #[tactic(auto, unfolding(crate::specs::Snapshot::console_number, gba_frozen_text::specs::Text::is_printable, gba_numbers::specs::Fields::is_field, gba_numbers::specs::Fields::place_of))]
    fn number(&self, field: Field) -> u64
        requires known { is_field field ≡ true }
        requires single { place_of field < 138 }
        ensures number { result ≡ console_number field self.now }
        ensures printable { is_printable field result ≡ true }
    {
        match field {
            Field::Clock => self.console.clock(),
            Field::Was => self.console.was(),
            Field::Applied => self.console.applied(),
            Field::Register(register) => u64::from(self.console.all()[register as usize]),
            Field::Board(field) => self.board_number(field),
            Field::QueueByte { .. } => unreachable!(),
            Field::Frames => self.console.counts().frames,
            Field::Samples => self.console.counts().samples,
            Field::Words => self.console.counts().words,
            Field::FlashState => self.flash_part(0),
            Field::FlashArmed => self.flash_part(1),
            Field::FlashIdentify => self.flash_part(2),
            Field::FlashBank => self.flash_part(3),
        }
    }
}

impl<'a> Freezing for Snapshot<'a> {
    ghost numbers = { numbers_of };

    fn value(&self, field: Field) -> u64 {
        have_own_places();
        self.number(field)
    }

    #[tactic(auto, unfolding(crate::specs::Snapshot::numbers_of))]
    fn queue(&self, queue: u32) -> &[u8] {
        self.console.board().core.devices().set().queue(queue)
    }

    #[tactic(auto, unfolding(crate::specs::Snapshot::numbers_of))]
    fn wave(&self, bank: u32) -> &[u8; 16] {
        if bank == 0 { &self.wave0 } else { &self.wave1 }
    }
}
