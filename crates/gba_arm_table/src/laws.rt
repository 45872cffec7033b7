//! Laws of the table. Each function takes no value and answers nothing; its contract is the law.

ghost use Rattle.std.specs.Prelude.{◌≡◌, ◌<◌, ◌^◌, ℕ, IfSome, IsOkAnd, IsTrue, Ok, Some};
ghost use Rattle.gba_terms.specs.Bits.{field};
ghost use Rattle.gba_arm_table.specs.Diagrams.{has_manual_bits};
ghost use Rattle.gba_arm_table.specs.Encoding.{encoding};
ghost use Rattle.gba_arm_table.specs.Limits.{Fits};
ghost use Rattle.gba_arm_table.specs.Table.{operation};

/// The operation of a word is never refused, and its own encoding decodes to it again.
pub fn decoded_words_encode()
    ensures { (word : ℕ) → IfSome (operation word) (λ op. IsOkAnd (encoding op) (λ again. operation again ≡ Some op)) }
{}

/// A word whose bits that should be one or zero are as the manual has them is its operation's own encoding.
pub fn manual_words_come_back()
    ensures { (word : ℕ) → word < 2 ^ 32
        → IfSome (operation word) (λ op. IsTrue (has_manual_bits op (field word)) → encoding op ≡ Ok word) }
{}

/// The fields of a word's operation fit their bits.
pub fn operations_fit()
    ensures { (word : ℕ) → IfSome (operation word) Fits }
{}
