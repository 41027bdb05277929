//! Laws of the definitions, each the contract of a function with an empty body.

ghost use Rattle.std.specs.Prelude.{◌≡◌, ◌<◌, ◌≤◌, ℕ, ◌^◌, true, None, Some, is_some, List, length, map, take, Ok};
ghost use Rattle.std.specs.List.{concat, filter, AllPairs, AllByRecursion};
ghost use Rattle.liszt_base.specs.Limits.{token_limit};
ghost use Rattle.liszt_lexer.specs.Lexer.{piece, longest_size, pieces, tokens_of, LiesBefore, IsSpelledIn, bytes_of, AreLongest, is_no_gap};
ghost use Rattle.liszt_lexer.specs.declared.token.Token.{Token as TokenOf};

/// The concatenation of the pieces of a text is the text.
pub fn pieces_are_the_text()
    ensures { (text : List ℕ) → concat (pieces text) ≡ text }
{}

/// The tokens of a text do not overlap, and are in the order of the text; their places ascend.
pub fn tokens_ascend()
    ensures { (text : List ℕ) (tokens : List TokenOf) → tokens_of text ≡ Ok tokens
        → AllPairs LiesBefore tokens }
{}

/// The bytes of a token spell it, and its place is the one after the bytes before it.
pub fn tokens_are_spelled()
    ensures { (text : List ℕ) (tokens : List TokenOf) → tokens_of text ≡ Ok tokens
        → AllByRecursion (IsSpelledIn text) tokens }
{}

/// `longest_size` is the size of the longest piece at the start of a text, and none where no piece starts there.
pub fn longest_size_is_longest()
    ensures some { (bytes : List ℕ) (size : ℕ) → longest_size bytes ≡ Some size
        → (size ≤ length bytes) × (is_some (piece (take size bytes)) ≡ true)
        × ((more : ℕ) → size < more → more ≤ length bytes → piece (take more bytes) ≡ None) }
    ensures none { (bytes : List ℕ) → longest_size bytes ≡ None → (size : ℕ) → 1 ≤ size
        → size ≤ length bytes → piece (take size bytes) ≡ None }
{}

/// Each piece of a text is the longest at the start of the remaining text, or one byte where no piece starts there.
pub fn pieces_are_longest()
    ensures { (text : List ℕ) → AreLongest text (pieces text) }
{}

/// Where there is no fault, the tokens are the pieces other than gaps.
pub fn tokens_are_the_pieces()
    ensures { (text : List ℕ) (tokens : List TokenOf) → tokens_of text ≡ Ok tokens
        → map (bytes_of text) tokens ≡ filter (λ bytes. is_no_gap (piece bytes)) (pieces text) }
{}

/// A text that is not refused has at most `token_limit` tokens.
pub fn tokens_are_few()
    ensures { (text : List ℕ) (tokens : List TokenOf) → tokens_of text ≡ Ok tokens
        → length tokens ≤ token_limit }
{}
