//! Laws of listings. Each function takes no value and answers nothing; its contract is its law.

ghost use Rattle.gba_dis.specs.Law.{ComesBack, TellsCalls, TellsHalfwords, TellsWords};

/// The assembler takes the listing of any bytes that make an image, and gives these bytes.
pub fn comes_back()
    ensures law { ComesBack }
{}

/// In ARM code each word whose statement says its operation, and whose other bits are the manual's, is listed as that
/// statement.
pub fn tells_words()
    ensures law { TellsWords }
{}

/// In Thumb code each halfword whose statement says its operation is listed as that statement.
pub fn tells_halfwords()
    ensures law { TellsHalfwords }
{}

/// In Thumb code the two halves of BL are always listed as one statement.
pub fn tells_calls()
    ensures law { TellsCalls }
{}
