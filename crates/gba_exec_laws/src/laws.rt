//! What instructions keep of the register file.

ghost use Rattle.std.specs.Prelude.{◌≡◌, ℕ, List, true};
ghost use Rattle.gba_arm_exec.specs.Execution.{execution as word_execution};
ghost use Rattle.gba_exec_laws.specs.Sound.{IsSoundFile};
ghost use Rattle.gba_psr.specs.RegisterFile.{status};
ghost use Rattle.gba_terms.specs.Bits.{bit};
ghost use Rattle.gba_thumb_exec.specs.Execution.{execution as half_execution};

use gba_arm_table::laws::operations_fit as words_fit;
use gba_bus::Bus;
use gba_thumb_table::laws::operations_fit as halves_fit;

/// Every word leaves r15 the address of an instruction, CPSR and the SPSRs with stored bits alone, and each of the 37
/// registers below 2^32, whatever the bus is.
pub fn words_stay_sound<B: Bus>()
    ensures { (word : ℕ) (file : List ℕ) (bus : B.State) → IsSoundFile file →
        IsSoundFile (word_execution B.code_price_of B.load_of B.store_of word file bus).registers }
{
    words_fit();
}

/// So does every halfword in Thumb state.
pub fn halfwords_stay_sound<B: Bus>()
    ensures { (half : ℕ) (file : List ℕ) (bus : B.State) → IsSoundFile file → bit (status file) 5 ≡ true →
        IsSoundFile (half_execution B.code_price_of B.load_of B.store_of half file bus).registers }
{
    halves_fit();
}
