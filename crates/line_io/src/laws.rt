//! What follows from the definition of wire lines, for readers and for proofs above. No code runs here.

ghost use Rattle.line_io.specs.Cutting.{LineCutter, StandsFor};
ghost use Rattle.std.specs.Prelude.{[], ◌++◌, ◌≡◌, ℕ, List};
ghost use Rattle.line_io.specs.Wire.{IsCut, wire_lines, wire_rest};

/// Each stream is lines, each with its CRLF, and a rest, with no CRLF within a line or in the rest, in exactly one way.
pub fn each_stream_is_cut_in_one_way()
    ensures cut { (stream : List ℕ) → IsCut stream (wire_lines stream) (wire_rest stream) }
    ensures only { (stream : List ℕ) (lines : List (List ℕ)) (rest : List ℕ) →
        IsCut stream lines rest → (wire_lines stream ≡ lines) × (wire_rest stream ≡ rest) }
{}

/// Between two lines a cutter stands also for its stream with whole lines after it that another took, as mail data.
pub fn whole_lines_may_be_taken_by_others()
    ensures { (cutter : LineCutter) (stream more : List ℕ) → StandsFor cutter stream →
        wire_rest stream ≡ [] → wire_rest more ≡ [] → StandsFor cutter (stream ++ more) }
{}
