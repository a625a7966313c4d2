//! What follows from the definitions, for readers and for proofs above. No code runs here.

ghost use Rattle.std.specs.Prelude.{◌≡◌, ℕ, List, Result, map, position};
ghost use Rattle.std.specs.Str.{bytes_eq};
ghost use Rattle.envelope.specs.Grammar.{Reads};
ghost use Rattle.envelope.specs.Names.{Directory, home_of, number_of};
ghost use Rattle.envelope.specs.Reading.{read};
ghost use Rattle.envelope.specs.Values.{Command};
ghost use Rattle.envelope.specs.declared.command.CommandFault.{CommandFault};

/// A word's number, in a directory that was made of words, is its position among them.
pub fn words_have_their_positions()
    ensures { (directory : Directory) (words : List (List ℕ)) (word : List ℕ) →
        directory.homes ≡ map home_of words
        → number_of directory word ≡ position (bytes_eq word) words }
{}

/// A line is read as the grammar says, and the grammar says one thing of each line (RFC 2033, 4; RFC 5321, 4.1.1). So whoever believes the grammar
/// needn't know how a line is read: `read` is the one function of which clause `found` is so.
pub fn commands_are_read_by_the_grammar()
    ensures found { (line : List ℕ) → Reads line (read line) }
    ensures only { (line : List ℕ) (r : Result Command CommandFault) → Reads line r → r ≡ read line }
{}
