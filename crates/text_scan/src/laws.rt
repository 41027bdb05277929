//! Laws of the definitions, each the contract of a function with an empty body.

ghost use Rattle.std.specs.Prelude.{◌≡◌, ℕ, false, List, ◌∷◌, ◌++◌, Result, ℤ, true, map};
ghost use Rattle.std.specs.List.{list_any, list_all, AllByRecursion};
ghost use Rattle.std.specs.List.Sorted.{IsStrictlyIncreasing};
ghost use Rattle.text_scan.specs.Numbers.{Means, millionths_of};
ghost use Rattle.text_scan.specs.Rows.{text_rows, lines, is_blank, is_line_feed, with_carriage_returns, EndWithoutCarriageReturn, IsWholeLines, IsRowUpTo, row_words};
ghost use Rattle.text_scan.specs.declared.faults.NumberFault.{NumberFault as Fault};

/// A coordinate's text has exactly one meaning, and `millionths_of` computes it.
pub fn one_meaning()
    ensures computed { (text : List ℕ) → Means text (millionths_of text) }
    ensures unique { (text : List ℕ) (meaning : Result ℤ Fault) → Means text meaning
        → meaning ≡ millionths_of text }
{}

/// A CR before each LF changes no row of a text no line of which ends in a CR.
pub fn carriage_returns_change_nothing()
    ensures { (bytes : List ℕ) → EndWithoutCarriageReturn (lines bytes)
        → text_rows (with_carriage_returns bytes) ≡ text_rows bytes }
{}

/// A line with a comment only, after any number of blanks, adds no row.
pub fn comments_add_no_rows()
    ensures { (front blanks comment back : List ℕ) → IsWholeLines front
        → list_all is_blank blanks ≡ true → list_any is_line_feed comment ≡ false
        → row_words (front ++ blanks ++ 35 ∷ comment ++ 10 ∷ back) ≡ row_words (front ++ back) }
{}

/// The line of each row is a line of the text, and the row has at least one word. A word has at least one byte, and no blank, `#`
/// or LF. The lines of the rows ascend.
pub fn rows_have_words()
    ensures words { (bytes : List ℕ) → AllByRecursion (IsRowUpTo (text_rows bytes).last_line)
        (text_rows bytes).rows }
    ensures ascending { (bytes : List ℕ) → IsStrictlyIncreasing
        (map (λ row. row.line) (text_rows bytes).rows) }
{}
