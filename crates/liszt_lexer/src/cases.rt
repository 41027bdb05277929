//! Worked cases of the tokens, computed by the checker. Each is the contract of a function with an empty body.
#![allow(dead_code)]

ghost use Rattle.std.specs.Prelude.{◌≡◌, ◌+◌, ◌-◌, None, Ok, Err, [], ◌∷◌, ◌++◌, codes, pos, replicate};
ghost use Rattle.liszt_base.specs.Limits.{name_limit, token_limit};
ghost use Rattle.liszt_base.specs.declared.answers.ProgramWhat.TheVariants.{BadByte, LongNumber, LongName, Big};
ghost use Rattle.liszt_lexer.specs.Cases.{token_at, refusal_at};
ghost use Rattle.liszt_lexer.specs.Lexer.{tokens_of, kinds_of, pieces, end_of, with_limit_at, fault_after};
ghost use Rattle.liszt_lexer.specs.declared.token.TokenKind.TheVariants.{Name as IsName, Number as IsNumber, Word as IsWord};
ghost use Rattle.liszt_lexer.specs.declared.token.TokenKind.TheVariants.{Symbol as IsSymbol, MinSet as IsMinSet, MaxSet as IsMaxSet};

/// The longest piece is taken: `<-` is one symbol even where a minus was meant, and two symbols with a blank between them.
fn longest_match()
    ensures arrow { kinds_of (codes "i<-1") ≡ Ok (IsName ∷ IsSymbol 7 ∷ IsNumber (pos 1) ∷ []) }
    ensures below_minus { kinds_of (codes "i < -1")
        ≡ Ok (IsName ∷ IsSymbol 12 ∷ IsSymbol 17 ∷ IsNumber (pos 1) ∷ []) }
    ensures min_set { kinds_of (codes "m min= 1") ≡ Ok (IsName ∷ IsMinSet ∷ IsNumber (pos 1) ∷ []) }
    ensures min_then_set { kinds_of (codes "min =") ≡ Ok (IsWord 9 ∷ IsSymbol 22 ∷ []) }
    ensures single { tokens_of (codes "a & b") ≡ Err
        (record { what = BadByte; place = record { line = 1; col = 3 }; first = None }) }
{}

/// `min=` is one token, followed by `=` in `min==`; `minx` is a name.
fn set_tokens()
    ensures min_set_set { kinds_of (codes "min==") ≡ Ok (IsMinSet ∷ IsSymbol 22 ∷ []) }
    ensures name { kinds_of (codes "minx") ≡ Ok (IsName ∷ []) }
    ensures word { kinds_of (codes "min") ≡ Ok (IsWord 9 ∷ []) }
    ensures max_set { kinds_of (codes "max=") ≡ Ok (IsMaxSet ∷ []) }
{}

/// Three `=` are `==` and `=`; digits end where a name starts.
fn side_by_side()
    ensures three { kinds_of (codes "===") ≡ Ok (IsSymbol 8 ∷ IsSymbol 22 ∷ []) }
    ensures digits_then_name { kinds_of (codes "12ab") ≡ Ok (IsNumber (pos 12) ∷ IsName ∷ []) }
    ensures name_with_digits { kinds_of (codes "ab12") ≡ Ok (IsName ∷ []) }
{}

/// A reserved word is a whole name, not a prefix of one.
fn reserved()
    ensures edges_ccw { kinds_of (codes "edges_ccw") ≡ Ok (IsWord 25 ∷ []) }
    ensures edges { kinds_of (codes "edges") ≡ Ok (IsWord 22 ∷ []) }
    ensures name { kinds_of (codes "edges_") ≡ Ok (IsName ∷ []) }
{}

/// The longest name.
fn longest_name()
    ensures { kinds_of (replicate name_limit 97) ≡ Ok (IsName ∷ []) }
{}

/// A name that is one byte longer is a fault at its first byte.
fn name_too_long()
    ensures { tokens_of (codes "a " ++ replicate (name_limit + 1) 97) ≡ refusal_at LongName 1 3 }
{}

/// The largest number is 2^63 - 1.
fn largest_number()
    ensures read { kinds_of (codes "9223372036854775807")
        ≡ Ok (IsNumber (pos 9223372036854775807) ∷ []) }
    ensures too_large { tokens_of (codes "9223372036854775808") ≡ refusal_at LongNumber 1 1 }
{}

/// Leading zeros do not change a number.
fn leading_zeros()
    ensures { kinds_of (codes "007") ≡ Ok (IsNumber (pos 7) ∷ []) }
{}

/// A comment ends at the end of its line or of the text, and has any bytes other than LF.
fn comments()
    ensures at_the_end { kinds_of (codes "a // b") ≡ Ok (IsName ∷ []) }
    ensures touching { kinds_of (codes "a//b") ≡ Ok (IsName ∷ []) }
    ensures comment_only { tokens_of (47 ∷ 47 ∷ 195 ∷ 169 ∷ []) ≡ Ok [] }
    ensures divided { kinds_of (codes "a/ /b") ≡ Ok
        (IsName ∷ IsSymbol 19 ∷ IsSymbol 19 ∷ IsName ∷ []) }
{}

/// The token after a comment is on the next line.
fn after_a_comment()
    ensures { tokens_of (codes "a //b\nc") ≡ Ok (token_at IsName 1 1 0 1 ∷ token_at IsName 2 1 6 7
        ∷ []) }
{}

/// Only LF ends a line; a CR and a tab are one byte of the line each.
fn blanks()
    ensures { tokens_of (97 ∷ 13 ∷ 10 ∷ 9 ∷ 98 ∷ [])
        ≡ Ok (token_at IsName 1 1 0 1 ∷ token_at IsName 2 2 4 5 ∷ []) }
{}

/// The empty text has no tokens, nor has a text of blanks.
fn no_tokens()
    ensures empty { tokens_of [] ≡ Ok [] }
    ensures blank { tokens_of (codes " \n ") ≡ Ok [] }
{}

/// A byte at which no piece starts is a fault at its place.
fn bad_bytes()
    ensures bar { tokens_of (codes "a | b") ≡ refusal_at BadByte 1 3 }
    ensures hash { tokens_of (codes "a\n #") ≡ refusal_at BadByte 2 2 }
    ensures accent { tokens_of (195 ∷ 169 ∷ []) ≡ refusal_at BadByte 1 1 }
{}

/// The first fault in byte order is reported.
fn first_fault()
    ensures name_first { tokens_of (replicate (name_limit + 1) 97 ++ codes " #")
        ≡ refusal_at LongName 1 1 }
    ensures byte_first { tokens_of (codes "# 9223372036854775808") ≡ refusal_at BadByte 1 1 }
{}

/// The last token within the limit is a token, and the next one is `Big` at its place; a fault there is unchanged.
fn counted_tokens()
    ensures last { with_limit_at (token_limit - 1) (Ok (token_at IsName 7 3 80 81))
        ≡ Ok (token_at IsName 7 3 80 81) }
    ensures above_limit { with_limit_at token_limit (Ok (token_at IsName 7 3 80 81))
        ≡ Err (record { what = Big; place = record { line = 7; col = 3 }; first = None }) }
    ensures fault { with_limit_at token_limit (Err (fault_after [] LongName))
        ≡ Err (fault_after [] LongName) }
{}

/// The end of a text that ends in LF is column 1 of the next line.
fn ends()
    ensures after_line { end_of (codes "a\n") ≡ record { line = 2; col = 1 } }
    ensures in_line { end_of (codes "a\nbc") ≡ record { line = 2; col = 3 } }
    ensures empty { end_of [] ≡ record { line = 1; col = 1 } }
{}

/// The pieces are the tokens and the gaps between them.
fn pieces_of_a_text()
    ensures { pieces (codes "a <-//b") ≡ codes "a" ∷ codes " " ∷ codes "<-" ∷ codes "//b" ∷ [] }
{}
