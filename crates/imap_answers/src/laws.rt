//! What follows from the definitions, for readers and for proofs above.
//! No code runs here.

ghost use Rattle.std.specs.Prelude.{◌≡◌, ℕ, List, true};
ghost use Rattle.imap_answers.specs.Answers.{Glob, matches};

/// The test of a pattern passes on the names that the pattern stands for, and on no others.
pub fn patterns_match_what_they_stand_for()
    ensures passes { (pattern name : List ℕ) → Glob pattern name → matches pattern name ≡ true }
    ensures alone { (pattern name : List ℕ) → matches pattern name ≡ true → Glob pattern name }
{}
