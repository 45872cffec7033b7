//! Laws of the table. Each function takes no value and answers nothing; its contract is the law.

ghost use Rattle.std.specs.Prelude.{◌≡◌, ◌<◌, ◌^◌, ℕ, IfSome, IsOkAnd, Ok, Some};
ghost use Rattle.gba_thumb_table.specs.Encoding.{encoding};
ghost use Rattle.gba_thumb_table.specs.Limits.{Fits};
ghost use Rattle.gba_thumb_table.specs.Table.{operation};

/// The operation of a halfword is never refused, and its own encoding decodes to it again.
pub fn decoded_halfwords_encode()
    ensures { (half : ℕ) → IfSome (operation half) (λ op. IsOkAnd (encoding op) (λ again. operation again ≡ Some op)) }
{}

/// A halfword that has an operation is that operation's own encoding.
pub fn halfwords_come_back()
    ensures { (half : ℕ) → half < 2 ^ 16 → IfSome (operation half) (λ op. encoding op ≡ Ok half) }
{}

/// The fields of a halfword's operation fit their bits.
pub fn operations_fit()
    ensures { (half : ℕ) → IfSome (operation half) Fits }
{}
