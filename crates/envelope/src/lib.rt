//! The envelope of a message: the commands of LMTP as a line spells them, and the directory that
//! says which mailbox a path names. A line is told as what the written grammar of specs/Grammar.antt
//! says of it. What stands behind a byte, a word or spaces at the front of a text is told for the grammar
//! of IMAP too. Connections, replies and messages are for the crates above.
#![tactic(auto)]

mod command;
mod directory;
mod laws;
mod local_part;
mod names;
mod reading;
mod recipients;
mod tag;
mod word;

pub use command::{CommandFault, ForwardPath, LmtpCommand, Mailbox, ReversePath, Verb};
pub use directory::{Directory, DirectoryFault, MOST_MAILBOXES, NoSuch};
pub use laws::{commands_are_read_by_the_grammar, words_have_their_positions};
pub use names::{is_folder, is_name, is_user};
pub use reading::{after_spaces, past_byte, past_keyword, read_command};
pub use recipients::{MOST_RECIPIENTS, Recipients, TooMany};
