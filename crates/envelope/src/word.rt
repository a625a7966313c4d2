//! The words that a directory is made of, `user` or `user/folder`, and what may be wrong with them.
//! Words are checked here and stored elsewhere.

ghost use Rattle.std.specs.Prelude.{◌≡◌, ◌+◌, map, [], nat_lt, if◌then◌else◌, Some, None, drop, length};
ghost use Rattle.std.specs.Option.{option_copied};
ghost use Rattle.std.specs.List.{list_any};
ghost use Rattle.envelope.specs.Names.{is_home, texts, home_of, is_right, word_fault, first_fault};
ghost use Rattle.envelope.specs.Word.{word_home};

use crate::directory::DirectoryFault;
use crate::names::{is_folder, is_user};
use crate::reading::{Class, run_len};

/// A word, cut at its first slash.
#[derive(Clone, Copy)]
pub struct Word<'a> {
    /// What stands before the first slash, or all where there is none.
    pub user: &'a [u8],
    /// What stands past the first slash, where there is one.
    pub folder: Option<&'a [u8]>,
}

/// What stands past the byte at this position, where there is one.
fn past(index: usize, bytes: &[u8]) -> Option<&[u8]>
    ensures { option_copied result
        ≡ (if nat_lt index (length bytes.now) then Some (drop (index + 1) bytes.now) else None) }
{
    if index < bytes.len() {
        Some(&bytes[index + 1..])
    } else {
        None
    }
}

impl<'a> Word<'a> {
    /// The word that these bytes spell, right or wrong.
    #[tactic(auto, using(crate::proofs::Cut::some_slash))]
    pub fn cut(word: &'a [u8]) -> Word<'a>
        ensures { word_home result ≡ home_of word.now }
    {
        let end = run_len(Class::NotSlash, word);
        Word {
            user: &word[..end],
            folder: past(end, word),
        }
    }

    /// Whether both name one mailbox, in upper or lower case.
    fn is_same(self, other: Word<'_>) -> bool
        ensures { result ≡ is_home (word_home self.entry) (word_home other.entry) }
    {
        self.user.eq_ignore_ascii_case(other.user)
            && match (self.folder, other.folder) {
                (None, None) => true,
                (Some(one), Some(two)) => one.eq_ignore_ascii_case(two),
                _ => false,
            }
    }

    /// Whether one of the words names this mailbox, in upper or lower case.
    fn is_among(self, words: &[&[u8]]) -> bool
        ensures { result ≡ list_any (is_home (word_home self.entry))
            (map home_of (texts words.now)) }
    {
        words.iter().any(|word| self.is_same(Word::cut(word)))
    }

    /// Whether the word is right after these words.
    fn is_right(self, earlier: &[&[u8]]) -> bool
        ensures { result ≡ is_right (map home_of (texts earlier.now)) (word_home self.entry) }
    {
        is_user(self.user)
            && match self.folder {
                None => true,
                Some(folder) => {
                    let inbox = Word {
                        user: self.user,
                        folder: None,
                    };
                    is_folder(folder) && inbox.is_among(earlier)
                }
            }
    }
}

/// What is wrong with a word after these words.
fn word_fault(earlier: &[&[u8]], word: &[u8]) -> Option<DirectoryFault>
    ensures { result ≡ word_fault (map home_of (texts earlier.now)) (home_of word.now) }
{
    let word = Word::cut(word);
    if !word.is_right(earlier) {
        Some(DirectoryFault::BadName)
    } else if word.is_among(earlier) {
        Some(DirectoryFault::Twice)
    } else {
        None
    }
}

/// What is wrong with the first word that has a fault.
pub fn first_fault(words: &[&[u8]]) -> Option<DirectoryFault>
    ensures { result ≡ first_fault [] (map home_of (texts words.now)) }
{
    for (i, word) in words.iter().enumerate() {
        if let Some(fault) = word_fault(&words[..i], word) {
            return Some(fault);
        }
    }
    None
}
