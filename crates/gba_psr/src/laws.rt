//! Laws of the register file, for the proofs of the crates above. Each function does nothing; its contract is its law.

ghost use Rattle.std.specs.Prelude.{◌≡◌, ◌≢◌, ℕ, ◌<◌, List};
ghost use Rattle.gba_psr.specs.declared.condition.Flags.{Flags};
ghost use Rattle.gba_psr.specs.declared.exceptions.Exception.{Exception};
ghost use Rattle.gba_psr.specs.Entry.{after_entry, entry_status, after_leave, vector};
ghost use Rattle.gba_psr.specs.Modes.{bank_distance, first_banked, place};
ghost use Rattle.gba_psr.specs.RegisterFile.{
  IsRegisterFile,
  flags,
  mode,
  register,
  saved_status,
  status,
  user_register,
  with_flags,
  with_register,
  with_saved_status,
  with_status,
};
ghost use Rattle.gba_psr.specs.Status.{kept_status, mode_of, written_status};

/// What was written to a register is read from it in the same mode, and every other register stays.
pub fn set_then_get()
    ensures same { (file : List ℕ) (number value : ℕ) → IsRegisterFile file → number < 16 →
        register (with_register file number value) number ≡ value }
    ensures others { (file : List ℕ) (number other value : ℕ) → number < 16 → other < 16 → other ≢ number →
        register (with_register file number value) other ≡ register file other }
    ensures status { (file : List ℕ) (number value : ℕ) → number < 16 →
        status (with_register file number value) ≡ status file }
    ensures saved { (file : List ℕ) (number value : ℕ) → number < 16 →
        saved_status (with_register file number value) ≡ saved_status file }
    ensures file { (file : List ℕ) (number value : ℕ) → IsRegisterFile file → number < 16 →
        IsRegisterFile (with_register file number value) }
{}

/// What was written to a register is read from it after a change of mode exactly where both modes have the same one of
/// that number; the other mode's own register stays as it was.
pub fn set_then_get_in_another_mode()
    ensures shared { (file : List ℕ) (number value written : ℕ) → IsRegisterFile file → number < 16 →
        place (mode_of (written_status (status file) written)) number ≡ place (mode file) number →
        register (with_status (with_register file number value) written) number ≡ value }
    ensures banked { (file : List ℕ) (number value written : ℕ) → IsRegisterFile file → number < 16 →
        place (mode_of (written_status (status file) written)) number ≢ place (mode file) number →
        register (with_status (with_register file number value) written) number
        ≡ register (with_status file written) number }
{}

/// The user's registers are the present mode's where it has none of its own under that number.
pub fn user_and_banked()
    ensures shared { (file : List ℕ) (number : ℕ) → number < first_banked (mode file) →
        register file number ≡ user_register file number }
    ensures pc { (file : List ℕ) → register file 15 ≡ user_register file 15 }
    ensures unbanked { (file : List ℕ) (number : ℕ) → bank_distance (mode file) ≡ 0 →
        register file number ≡ user_register file number }
{}

/// What CPSR and the SPSR are once they were written.
pub fn status_written()
    ensures status { (file : List ℕ) (value : ℕ) → IsRegisterFile file →
        status (with_status file value) ≡ written_status (status file) value }
    ensures file { (file : List ℕ) (value : ℕ) → IsRegisterFile file →
        IsRegisterFile (with_status file value) }
    ensures flags { (file : List ℕ) (new : Flags) → IsRegisterFile file →
        flags (with_flags file new) ≡ new }
    ensures mode { (file : List ℕ) (new : Flags) → IsRegisterFile file →
        mode (with_flags file new) ≡ mode file }
    ensures saved { (file : List ℕ) (value : ℕ) → IsRegisterFile file → bank_distance (mode file) ≢ 0 →
        saved_status (with_saved_status file value) ≡ kept_status value }
    ensures none_saved { (file : List ℕ) (value : ℕ) → bank_distance (mode file) ≡ 0 →
        with_saved_status file value ≡ file }
{}

/// An exception entered and left again gives back CPSR, and so the mode.
pub fn enter_then_leave()
    ensures { (kind : Exception) (link : ℕ) (file : List ℕ) → IsRegisterFile file →
        status (after_leave (after_entry kind link file)) ≡ status file }
{}

/// What an exception's entry leaves.
pub fn entry()
    ensures link { (kind : Exception) (link : ℕ) (file : List ℕ) → IsRegisterFile file →
        register (after_entry kind link file) 14 ≡ link }
    ensures counter { (kind : Exception) (link : ℕ) (file : List ℕ) → IsRegisterFile file →
        register (after_entry kind link file) 15 ≡ vector kind }
    ensures status { (kind : Exception) (link : ℕ) (file : List ℕ) → IsRegisterFile file →
        status (after_entry kind link file) ≡ entry_status kind (status file) }
    ensures saved { (kind : Exception) (link : ℕ) (file : List ℕ) → IsRegisterFile file →
        saved_status (after_entry kind link file) ≡ status file }
    ensures file { (kind : Exception) (link : ℕ) (file : List ℕ) → IsRegisterFile file →
        IsRegisterFile (after_entry kind link file) }
{}
