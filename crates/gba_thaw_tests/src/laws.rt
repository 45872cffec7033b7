//! The laws of consoles that are made again of what a frozen file says of them, and of the rules that consoles keep
//! in each run.

use gba_io::Core;

// A law answers nothing: that it holds is its contract.
#[test]
fn making_again_is_stated() {
    gba_thaw_laws::laws::halves_again();
    gba_thaw_laws::laws::says_itself();
    gba_thaw_laws::laws::channels_thaw_again();
    gba_thaw_laws::laws::picture_thaws_again();
    gba_thaw_laws::laws::sound_thaws_again();
    gba_thaw_laws::laws::control_thaws_again();
    gba_thaw_laws::laws::serial_thaws_again();
    gba_thaw_laws::laws::devices_thaw_again();
    gba_thaw_laws::laws::bits_are_stored();
    gba_thaw_laws::laws::thaws_again();
    gba_thaw_laws::laws::lines_stand();
    gba_thaw_laws::laws::lines_thaw_again();
    gba_thaw_laws::laws::files_thaw_again();
}

#[test]
fn rules_of_a_run_are_stated() {
    gba_exec_laws::laws::words_stay_sound::<Core>();
    gba_exec_laws::laws::halfwords_stay_sound::<Core>();
    gba_device_laws::laws::devices_stay();
    gba_device_laws::laws::serial_stays();
    gba_run_laws::laws::steps_hold();
    gba_run_laws::laws::steps_leave_the_rest();
    gba_freeze_laws::laws::runs_can_be_frozen();
    gba_freeze_laws::laws::frozen_files_are_short();
    gba_freeze_laws::laws::frozen_runs_go_on();
}
