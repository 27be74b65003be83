//! What holds of the lines of every stream.
ghost use Rattle.std.specs.Prelude.{◌≡◌, ℕ, ◌+◌, ◌<◌, ◌≤◌, ◌↔◌, false, List, [], ◌∷◌, ◌++◌, length, take, IsTrue, IsFalse};
ghost use Rattle.std.specs.List.{AllByRecursion};
ghost use Rattle.hs_line.specs.Lines.{IsLine, lines_of, rest_of, whole_lines, is_too_long, joined};
ghost use Rattle.hs_line.specs.declared.limits.TheConstants.{MAX_LINE_LEN};

/// The lines and the rest are the stream, and it can be cut in no other way.
pub fn lines_and_the_rest()
    ensures joined { (bytes : List ℕ) → joined (lines_of bytes) (rest_of bytes) ≡ bytes }
    ensures lines { (bytes : List ℕ) → AllByRecursion IsLine (lines_of bytes) }
    ensures rest { (bytes : List ℕ) → IsLine (rest_of bytes) }
    ensures lines_found { (lines : List (List ℕ)) (rest : List ℕ) →
        AllByRecursion IsLine lines → IsLine rest → lines_of (joined lines rest) ≡ lines }
    ensures rest_found { (lines : List (List ℕ)) (rest : List ℕ) →
        IsLine rest → rest_of (joined lines rest) ≡ rest }
{}

/// Bytes that come later change no line that is there, and the rest is all that they are read with.
pub fn lines_as_they_come()
    ensures lines { (bytes more : List ℕ) →
        lines_of (bytes ++ more) ≡ lines_of bytes ++ lines_of (rest_of bytes ++ more) }
    ensures rest { (bytes more : List ℕ) →
        rest_of (bytes ++ more) ≡ rest_of (rest_of bytes ++ more) }
    ensures first { (line more : List ℕ) → IsLine line →
        lines_of (line ++ 10 ∷ more) ≡ line ∷ lines_of more }
    ensures none { (bytes : List ℕ) → IsLine bytes ↔ (lines_of bytes ≡ []) }
{}

/// What `is_too_long` says before each line is taken, and the lines that are taken so.
pub fn whole_lines_one_by_one()
    ensures too_long { (bytes : List ℕ) → IsTrue (is_too_long bytes)
        ↔ ((MAX_LINE_LEN < length bytes) × IsLine (take (MAX_LINE_LEN + 1) bytes)) }
    ensures stops { (bytes : List ℕ) → IsTrue (is_too_long bytes) → whole_lines bytes ≡ [] }
    ensures fits { (line more : List ℕ) → IsLine line →
        (length line ≤ MAX_LINE_LEN) ↔ IsFalse (is_too_long (line ++ 10 ∷ more)) }
    ensures goes_on { (line more : List ℕ) → IsLine line → length line ≤ MAX_LINE_LEN →
        whole_lines (line ++ 10 ∷ more) ≡ line ∷ whole_lines more }
    ensures waits { (bytes : List ℕ) → IsLine bytes → whole_lines bytes ≡ [] }
{}

/// Examples: an empty line, a CR that is a byte as any other, and three requests.
pub fn lines_of_examples()
    ensures empty_line { lines_of (97 ∷ 98 ∷ 10 ∷ 10 ∷ 99 ∷ []) ≡ (97 ∷ 98 ∷ []) ∷ [] ∷ [] }
    ensures rest { rest_of (97 ∷ 98 ∷ 10 ∷ 10 ∷ 99 ∷ []) ≡ 99 ∷ [] }
    ensures carriage_return { lines_of (97 ∷ 13 ∷ 10 ∷ []) ≡ (97 ∷ 13 ∷ []) ∷ [] }
    ensures no_end { lines_of (97 ∷ 98 ∷ []) ≡ [] }
    ensures whole { whole_lines (97 ∷ 10 ∷ 98 ∷ 10 ∷ 99 ∷ []) ≡ (97 ∷ []) ∷ (98 ∷ []) ∷ [] }
    ensures short { is_too_long (97 ∷ 98 ∷ []) ≡ false }
{}
