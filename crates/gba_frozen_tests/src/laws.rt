//! The laws of the numbers and of frozen files.

// A law answers nothing: that it holds is its contract.
#[test]
fn the_laws_are_stated() {
    gba_numbers::laws::sets_one();
    gba_numbers::laws::have_own_places();
    gba_frozen::laws::answered();
    gba_frozen::laws::one_answer();
    gba_frozen_print::laws::rows_again();
    gba_frozen_print::laws::rows_sound();
    gba_frozen_print::laws::digest_again();
    gba_frozen_print::laws::waves_again();
    gba_frozen_print::laws::queues_again();
    gba_frozen_print::laws::memory_again();
    gba_frozen_print::laws::drawn_again();
    gba_frozen_print::laws::signals_again();
    gba_frozen_text::laws::files_again();
    gba_frozen_text::laws::memories_again();
    gba_frozen_text::laws::first_is_whole();
}
