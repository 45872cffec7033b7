//! Laws over the definitions. Each is the contract of a function that takes no value.

ghost use Rattle.gba_thaw_laws.specs.Cut.{FilesThawAgain};
ghost use Rattle.gba_thaw_laws.specs.Laws.{BitsAreStored, ChannelsThawAgain, ControlThawsAgain, DevicesThawAgain, HalvesAgain, PictureThawsAgain, SaysItself, SerialThawsAgain, SoundThawsAgain, ThawsAgain};
ghost use Rattle.gba_thaw_laws.specs.Text.{LinesStand, LinesThawAgain};

/// The bytes of a core's I/O registers, read as halfwords, are what is stored there.
pub fn halves_again()
    ensures { HalvesAgain }
{}

/// A console that keeps its rules has numbers in their ranges, and they and its bytes are those of its board.
pub fn says_itself()
    ensures { SaysItself }
{}

/// What a frozen file says of a board makes its DMA channels again.
pub fn channels_thaw_again()
    ensures { ChannelsThawAgain }
{}

/// It makes the picture's registers and its inner reference points again.
pub fn picture_thaws_again()
    ensures { PictureThawsAgain }
{}

/// It makes direct sound and the tones again.
pub fn sound_thaws_again()
    ensures { SoundThawsAgain }
{}

/// It makes the interrupts and the keypad again.
pub fn control_thaws_again()
    ensures { ControlThawsAgain }
{}

/// It makes the serial unit again, but for what that had to tell.
pub fn serial_thaws_again()
    ensures { SerialThawsAgain }
{}

/// It makes all devices again. The accesses of the next step take the prices of WAITCNT as it is.
pub fn devices_thaw_again()
    ensures { DevicesThawAgain }
{}

/// The I/O registers of a board that keeps its rules have only bits that may be 1 in a frozen file.
pub fn bits_are_stored()
    ensures { BitsAreStored }
{}

/// What a frozen file says of a console that keeps its rules makes it again of one at the start of its job, but for
/// what no step looks at: every test is passed where the console's last step began below the job's end.
pub fn thaws_again()
    ensures { ThawsAgain }
{}

/// The lines of such a console, whose bytes are bytes, may stand in a frozen file of a job in which it began its last
/// step below the job's end.
pub fn lines_stand()
    ensures { LinesStand }
{}

/// What these lines say makes the console again of one at the start of its job, but for what no step looks at.
pub fn lines_thaw_again()
    ensures { LinesThawAgain }
{}

/// The frozen file of consoles that keep their rules on the cable of their job, if it isn't too long, is thawed: each
/// console, but for what no step looks at, the cable and the signals on their way are those that were frozen. At each
/// later clock the consoles that go on from it are what the frozen ones are then, and have made since what these have.
pub fn files_thaw_again()
    ensures { FilesThawAgain }
{}
