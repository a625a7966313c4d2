//! The date of a message, without a clock: what the last relay wrote into the first Received field of its header
//! (RFC 5322, sections 3.3, 3.6.7 and 4.3), and the form in which IMAP writes a date (RFC 9051, date-time).
//! Which answers have a date in them is for the crates above.
#![tactic(auto)]

mod field;
mod front;
mod given;
mod internal;
mod laws;
mod parts;
mod place;
mod stamp;
#[cfg(test)]
mod tests;

pub use field::{
    begins_field, ends_field, field_len, is_empty_line, message_date, past_colon, received,
};
pub use front::{day_at, month_at, two_at};
pub use given::read_internal_date;
pub use internal::internal_date;
pub use laws::{
    a_given_date_is_read, a_message_has_the_date_that_it_says, the_first_received_is_taken,
    the_last_semicolon_is_taken, what_is_read_is_spelled, what_is_spelled_is_read,
    what_is_written_is_read,
};
pub use stamp::{Stamp, Zone};
