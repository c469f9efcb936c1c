//! Laws of the definitions.

ghost use Rattle.std.specs.Prelude.{◌≡◌, ◌≢◌, ◌+◌, ◌^◌, ◌<◌, ◌≤◌, ◌==◌, ◌++◌, ◌∷◌, [], ℕ, ℤ, Bool, List, length, count_by, codes, pos, negsuc, unsigned_abs};
ghost use Rattle.std.specs.List.{All, Contains, join_with_byte};
ghost use Rattle.std.specs.Fmt.{decimal, signed_decimal};
ghost use Rattle.lines.specs.Lines.{line_feed, carriage_return, comma, lines_in, lines_of, ended_lines_of, fields_of};
ghost use Rattle.lines.specs.Numbers.{number_in};

/// A text is cut at its first line feed: what stands before it makes a line, and the lines of what follows come after it.
/// What no line feed ends makes a line too, but no ended one. A piece makes the line that it is without the one carriage
/// return at its end, and none where nothing is left.
pub fn lines_are_cut()
    ensures first { (piece rest : List ℕ) → ¬ Contains piece line_feed →
        lines_of (piece ++ line_feed ∷ rest) ≡ lines_in (piece ∷ []) ++ lines_of rest }
    ensures first_ended { (piece rest : List ℕ) → ¬ Contains piece line_feed →
        ended_lines_of (piece ++ line_feed ∷ rest) ≡ lines_in (piece ∷ []) ++ ended_lines_of rest }
    ensures last { (piece : List ℕ) → ¬ Contains piece line_feed →
        (lines_of piece ≡ lines_in (piece ∷ [])) × (ended_lines_of piece ≡ []) }
    ensures plain { (line : List ℕ) (byte : ℕ) → byte ≢ carriage_return →
        lines_in ((line ++ byte ∷ []) ∷ []) ≡ (line ++ byte ∷ []) ∷ [] }
    ensures returned { (line : List ℕ) → line ≢ [] → lines_in ((line ++ carriage_return ∷ []) ∷ []) ≡ line ∷ [] }
    ensures empty { (lines_in ([] ∷ []) ≡ []) × (lines_in ((carriage_return ∷ []) ∷ []) ≡ []) }
{}

/// No line is empty, and none holds a line feed.
pub fn lines_are_lines()
    ensures { (text : List ℕ) → All (λ line. (line ≢ []) × ¬ Contains line line_feed) (lines_of text) }
{}

/// The fields of a line, with commas between them, are the line. There is one more of them than there are commas, and none
/// holds one.
pub fn fields_are_the_line()
    ensures joined { (line : List ℕ) → join_with_byte comma (fields_of line) ≡ line }
    ensures number { (line : List ℕ) → length (fields_of line) ≡ count_by (λ byte. byte == comma) line + 1 }
    ensures within { (line : List ℕ) → All (λ field. ¬ Contains field comma) (fields_of line) }
{}

/// A number that is written in decimal digits is read back, where the digits suffice.
pub fn written_numbers_are_read()
    ensures count { (digits n : ℕ) (signed : Bool) → 1 ≤ digits → digits ≤ 18 → n < 10 ^ digits →
        number_in digits signed (decimal n) ≡ Some (pos n) }
    ensures number { (digits : ℕ) (z : ℤ) → 1 ≤ digits → digits ≤ 18 → unsigned_abs z < 10 ^ digits →
        number_in digits Bool.true (signed_decimal z) ≡ Some z }
{}

/// A worked text: an empty line is none, a carriage return is left off, and the last line needs no line feed.
pub fn worked_lines()
    ensures lines { lines_of (codes "a\r\n\n,b") ≡ codes "a" ∷ codes ",b" ∷ [] }
    ensures ended { ended_lines_of (codes "a\r\n\n,b") ≡ codes "a" ∷ [] }
    ensures fields { fields_of (codes ",b") ≡ [] ∷ codes "b" ∷ [] }
{}

/// Worked fields: `-0` is a number where signs are allowed, and what has no digit, a sign too many or a digit too many is
/// none.
#[tactic(auto, unfolding(crate::specs::Numbers::number_in))]
pub fn worked_numbers()
    ensures minus_zero { number_in 18 Bool.true (codes "-0") ≡ Some (pos 0) }
    ensures leading_zeros { number_in 18 Bool.true (codes "-007") ≡ Some (negsuc 6) }
    ensures empty { number_in 10 Bool.false [] ≡ None }
    ensures unsigned { number_in 10 Bool.false (codes "-1") ≡ None }
    ensures longer { number_in 1 Bool.false (codes "12") ≡ None }
{}
