//! What follows from the definitions of mail data, for readers and for proofs above. No code runs here.

ghost use Rattle.std.specs.Prelude.{◌≡◌, ℕ, List, [], ◌++◌};
ghost use Rattle.line_io.specs.Wire.{crlf};
ghost use Rattle.dot_stuffing.specs.Data.{dot, stuffed, EndsWhole, IsOpen, Plain};

/// A text that is stuffed, with a line of one dot after it, is data whose text it is.
pub fn stuffed_data_is_plain()
    ensures { (text : List ℕ) → EndsWhole text → Plain (stuffed text ++ (dot ++ crlf)) text }
{}

/// Data has one text.
pub fn data_has_one_text()
    ensures { (wire text other : List ℕ) → Plain wire text → Plain wire other → text ≡ other }
{}

/// No beginning of open data is whole data.
pub fn open_data_has_not_ended()
    ensures { (wire more text : List ℕ) → IsOpen (wire ++ more) → Plain wire text → ⊥ }
{}

/// Nothing comes after the end of data.
pub fn data_ends_once()
    ensures { (wire more text other : List ℕ) →
        Plain wire text → Plain (wire ++ more) other → more ≡ [] }
{}
