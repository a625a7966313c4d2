//! What follows from the definitions, for readers and for proofs above. No code runs here.

ghost use Rattle.std.specs.Prelude.{◌≡◌, ◌≤◌, ◌||◌, ◌↔◌, codes, drop, length, true, ℕ, List, Result, Some};
ghost use Rattle.std.specs.List.{list_all};
ghost use Rattle.envelope.specs.Grammar.{Exactly, ◌⨾◌};
ghost use Rattle.imap_grammar.specs.Bytes.{is_quotable, is_special};
ghost use Rattle.imap_grammar.specs.Grammar.{DoneLine, LiteralIs, Quoted, Reads};
ghost use Rattle.imap_grammar.specs.Literals.{announced, quoted};
ghost use Rattle.imap_grammar.specs.Reading.{is_done, read};
ghost use Rattle.imap_grammar.specs.declared.command.Command.{Command};
ghost use Rattle.imap_grammar.specs.declared.command.ImapFault.{ImapFault};
ghost use Rattle.imap_grammar.specs.declared.command.Literal.{Literal};

/// A line announces a literal just where the grammar's literal ends it, and so it announces at most one (RFC 9051, 4.3; RFC 7888).
pub fn literals_are_announced()
    // What is announced stands at the end of the line, behind so many bytes.
    ensures spelled { (line : List ℕ) (n : ℕ) (literal : Literal)
        → announced line ≡ Some (n, literal)
        → (n ≤ length line) × LiteralIs literal (drop n line) }
    // What stands there is announced.
    ensures announced { (line : List ℕ) (n : ℕ) (literal : Literal) → n ≤ length line
        → LiteralIs literal (drop n line)
        → announced line ≡ Some (n, literal) }
{}

/// A text of bytes that a quoted string may have is said by the quoted string that is written of it (RFC 9051, 4.3). So that string may stand where
/// a literal stood that had this text.
pub fn quoted_texts_are_read()
    ensures { (text : List ℕ) → list_all (λ b. is_quotable b || is_special b) text ≡ true
        → (Exactly (codes "\"") ⨾ Quoted text ⨾ Exactly (codes "\"")) (quoted text) }
{}

/// A line is read as the grammar says, and the grammar says one thing of each line (RFC 9051, 6 and 9; RFC 2177). So whoever believes the grammar
/// needn't know how a line is read: `read` is the one function of which clause `found` is so, and `is_done` the one of which `done` is.
pub fn lines_are_read_by_the_grammar()
    ensures found { (line : List ℕ) → Reads line (read line) }
    ensures only { (line : List ℕ) (r : Result (List ℕ × Command) ImapFault) → Reads line r → r ≡ read line }
    // The line that ends an IDLE.
    ensures done { (line : List ℕ) → (is_done line ≡ true) ↔ DoneLine line }
{}
