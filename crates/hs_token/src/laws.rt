//! What holds of the spelling itself, whoever writes or reads it, and lines of the protocol.
ghost use Rattle.std.specs.Prelude.{◌≡◌, ◌≢◌, ◌<◌, ◌^◌, ℕ, ℤ, pos, negsuc, List, [], ◌∷◌, ◌++◌, Ok, Err, Some, None, codes, decimal, FitsSigned};
ghost use Rattle.std.specs.Int.{w64};
ghost use Rattle.std.specs.Fmt.{signed_decimal};
ghost use Rattle.std.specs.List.{AllByRecursion};
ghost use Rattle.hs_token.specs.declared.tokens.Token.{Token};
ghost use Rattle.hs_token.specs.Spelling.{token_spelled, line_spelled, behind_tabs, reply_head, reply_line, text_spelled};
ghost use Rattle.hs_token.specs.Reading.{IsFirstBad, line_at};
ghost use Rattle.hs_token.specs.Number.{u32_of, u64_of, i64_of};
ghost use Rattle.hs_token.specs.Examples.{long_row, long_row_bytes};

/// No two tokens share a spelling, and neither do two lists of at least one token.
pub fn spellings_are_unique()
    ensures token { (t u : Token) → token_spelled t ≡ token_spelled u → t ≡ u }
    ensures line { (ts us : List Token) → ts ≢ [] → us ≢ []
        → line_spelled ts ≡ line_spelled us → ts ≡ us }
{}

/// What is spelled is read again, and no LF is in it.
pub fn spellings_are_lines()
    ensures again { (ts : List Token) → ts ≢ [] → line_at (line_spelled ts) ≡ Ok ts }
    ensures one_line { (ts : List Token) → AllByRecursion (λ b. b ≢ 10) (line_spelled ts) }
{}

/// A line either has a first bad place or spells tokens, and never both.
pub fn lines_are_bad_or_spelled()
    ensures bad { (line : List ℕ) (place : ℕ) → IsFirstBad line place
        → (ts : List Token) → ts ≢ [] → line ≢ line_spelled ts }
    ensures spelled { (line : List ℕ) → ((place : ℕ) → ¬ IsFirstBad line place)
        → (ts : List Token) × (ts ≢ []) × (line ≡ line_spelled ts) }
{}

/// A reply is its head, each token behind an HT, and LF.
pub fn replies_have_parts()
    ensures parts { (code columns : ℕ) (ts : List Token) → code < 2 ^ 32 → columns < 2 ^ 32
        → reply_line code columns ts ≡ reply_head code columns ++ behind_tabs ts ++ 10 ∷ [] }
{}

/// A number in its printed form is read again, and stands for itself.
pub fn printed_numbers_are_read()
    ensures narrow { (n : ℕ) → n < 2 ^ 32 → u32_of (decimal n) ≡ Some n }
    ensures unsigned { (n : ℕ) → n < 2 ^ 64 → u64_of (decimal n) ≡ Some n }
    ensures signed { (z : ℤ) → FitsSigned w64 z → i64_of (signed_decimal z) ≡ Some z }
    ensures plain { (n : ℕ) → n < 2 ^ 64 → text_spelled (decimal n) ≡ decimal n }
{}

/// Lines of the protocol, written out.
pub fn example_lines()
    // A text of a tab alone is 01 49.
    ensures tab { token_spelled (Token.Text (9 ∷ [])) ≡ 1 ∷ 73 ∷ [] }
    ensures empty_line { line_at [] ≡ Ok (Token.Text [] ∷ []) }
    ensures reply { reply_line 0 3
        (Token.Text (codes "1") ∷ Token.Text (codes "ann") ∷ Token.Null ∷ [])
        ≡ codes "0\t3\t1\tann\t" ++ 0 ∷ 10 ∷ [] }
    // A row with NULL, an empty text and bytes that don't stand for themselves, both ways.
    ensures long_row_read { line_at long_row_bytes ≡ Ok long_row }
    ensures long_row_spelled { line_spelled long_row ≡ long_row_bytes }
{}

/// Lines that no tokens are spelled as, and their first bad places.
pub fn example_faults()
    ensures raw_carriage_return { line_at (codes "1\t=\t1\t1\r") ≡ Err 7 }
    ensures wide_escape { line_at (codes "a" ++ 1 ∷ 80 ∷ []) ≡ Err 1 }
    ensures escape_cut_by_a_tab { line_at (codes "a" ++ 1 ∷ 9 ∷ 73 ∷ []) ≡ Err 1 }
    ensures null_inside_a_text { line_at (codes "a\tb" ++ 0 ∷ 2 ∷ []) ≡ Err 3 }
{}

/// Texts that write numbers, and texts that don't.
pub fn example_numbers()
    ensures greatest_u32 { u32_of (codes "4294967295") ≡ Some 4294967295 }
    ensures past_u32 { u32_of (codes "4294967296") ≡ None }
    ensures greatest_u64 { u64_of (codes "18446744073709551615") ≡ Some 18446744073709551615 }
    ensures past_u64 { u64_of (codes "18446744073709551616") ≡ None }
    ensures leading_zeros { u32_of (codes "00000000000007") ≡ Some 7 }
    ensures no_digits { u32_of [] ≡ None }
    ensures greatest_i64 { i64_of (codes "+9223372036854775807") ≡ Some (pos 9223372036854775807) }
    ensures past_i64 { i64_of (codes "9223372036854775808") ≡ None }
    ensures least_i64 { i64_of (codes "-9223372036854775808") ≡ Some (negsuc 9223372036854775807) }
    ensures below_i64 { i64_of (codes "-9223372036854775809") ≡ None }
    ensures sign_alone { i64_of (codes "-") ≡ None }
{}
