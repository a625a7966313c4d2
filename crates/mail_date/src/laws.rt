//! What follows from the definitions, for readers and for proofs above. No code runs here.

ghost use Rattle.std.specs.Prelude.{◌≡◌, ℕ, List, Some, true};
ghost use Rattle.mail_date.specs.Fields.{received_body, date_part, message_date, no_date};
ghost use Rattle.mail_date.specs.Header.{FirstReceived, BehindLast, Says};
ghost use Rattle.mail_date.specs.declared.stamp.Stamp.{Stamp};
ghost use Rattle.mail_date.specs.Grammar.{DateTime};
ghost use Rattle.mail_date.specs.Reading.{date_time};
ghost use Rattle.mail_date.specs.Dates.{is_date};
ghost use Rattle.mail_date.specs.Given.{GivenDate};
ghost use Rattle.mail_date.specs.Internal.{internal_text};
ghost use Rattle.mail_date.specs.InternalBack.{internal_date};

/// Each date that is read is one that the grammar spells, and the calendar and the clock have it.
pub fn what_is_read_is_spelled()
    ensures { (text : List ℕ) (s : Stamp) → date_time text ≡ Some s → DateTime s text }
{}

/// Each date that the grammar spells, and the calendar and the clock have, is read.
pub fn what_is_spelled_is_read()
    ensures { (text : List ℕ) (s : Stamp) → DateTime s text → date_time text ≡ Some s }
{}

/// What is written of a date in IMAP's form is read back as that date.
pub fn what_is_written_is_read()
    ensures { (s : Stamp) → is_date s ≡ true → internal_date (internal_text s) ≡ Some s }
{}

/// Each date that is read as IMAP's clients give one is spelled by the written rules, and each that they spell is read (RFC 9051, 9: date-time).
pub fn a_given_date_is_read()
    ensures sound { (text : List ℕ) (s : Stamp) → internal_date text ≡ Some s → GivenDate s text }
    ensures complete { (text : List ℕ) (s : Stamp) →
        GivenDate s text → internal_date text ≡ Some s }
{}

/// The field whose date is taken is the first Received field of the header, by the written rules: each body that is
/// taken is that of such a field, and where there is such a field its body is taken.
pub fn the_first_received_is_taken()
    ensures sound { (text body : List ℕ) →
        received_body true text ≡ Some body → FirstReceived text body }
    ensures complete { (text body : List ℕ) →
        FirstReceived text body → received_body true text ≡ Some body }
{}

/// What is read as the date is what stands behind the field's last semicolon that no quoted string and no comment
/// holds, by the written rules; and where there is such a semicolon, what stands behind it is read.
pub fn the_last_semicolon_is_taken()
    ensures sound { (body part : List ℕ) → date_part body ≡ Some part → BehindLast body part }
    ensures complete { (body part : List ℕ) → BehindLast body part → date_part body ≡ Some part }
{}

/// The date of a message is the one that its first Received field says by the written rules; where that says none, it
/// is 01-Jan-1970 00:00:00 +0000.
pub fn a_message_has_the_date_that_it_says()
    ensures says { (text : List ℕ) (s : Stamp) → Says text s → message_date text ≡ s }
    ensures silent { (text : List ℕ) →
        ((s : Stamp) → Says text s → ⊥) → message_date text ≡ no_date }
{}
