//! Worked cases of the depth, computed by the checker. Each is the contract of a function with an empty body.
//! Symbols: 0 `(`, 1 `)`, 2 `{`, 3 `}`, 16 `+`, 17 `-`, 21 `!`, 22 `=`; words: 15 `head`, 20 `towards`.
#![allow(dead_code)]

ghost use Rattle.std.specs.Prelude.{◌≡◌, [], ◌∷◌, ◌++◌, pos, replicate, ◌+◌};
ghost use Rattle.liszt_lexer.specs.declared.token.TokenKind.TheVariants.{Name as IsName, Number as IsNumber};
ghost use Rattle.liszt_lexer.specs.declared.token.TokenKind.TheVariants.{Word as IsWord, Symbol as IsSymbol};
ghost use Rattle.liszt_base.specs.Limits.{depth_limit};
ghost use Rattle.liszt_parser.specs.Cases.{tokens};
ghost use Rattle.liszt_parser.specs.Depth.{depth};

/// Each open bracket or brace adds one: `( (`, `( ( a )`, `{ (`; `( a )` adds none.
fn open_brackets()
    ensures two { depth (tokens (IsSymbol 0 ∷ IsSymbol 0 ∷ [])) ≡ 2 }
    ensures one_closed { depth (tokens (IsSymbol 0 ∷ IsSymbol 0 ∷ IsName ∷ IsSymbol 1 ∷ [])) ≡ 1 }
    ensures brace { depth (tokens (IsSymbol 2 ∷ IsSymbol 0 ∷ [])) ≡ 2 }
    ensures all_closed { depth (tokens (IsSymbol 0 ∷ IsName ∷ IsSymbol 1 ∷ [])) ≡ 0 }
    ensures nothing { depth [] ≡ 0 }
{}

/// The depth at the `-` of `( ( - a` is three, and two at `a`, which completes the operand.
fn minus_in_brackets()
    ensures at_minus { depth (tokens (IsSymbol 0 ∷ IsSymbol 0 ∷ IsSymbol 17 ∷ [])) ≡ 3 }
    ensures at_name { depth (tokens (IsSymbol 0 ∷ IsSymbol 0 ∷ IsSymbol 17 ∷ IsName ∷ [])) ≡ 2 }
{}

/// The depth of `- ( a` is two. The closing bracket also completes the operand, whether or not a `+` follows.
fn minus_before_brackets()
    ensures inside { depth (tokens (IsSymbol 17 ∷ IsSymbol 0 ∷ IsName ∷ [])) ≡ 2 }
    ensures closed { depth (tokens (IsSymbol 17 ∷ IsSymbol 0 ∷ IsName ∷ IsSymbol 1 ∷ [])) ≡ 0 }
    ensures after { depth (tokens (IsSymbol 17 ∷ IsSymbol 0 ∷ IsName ∷ IsSymbol 1 ∷ IsSymbol 16
        ∷ [])) ≡ 0 }
{}

/// The depth of `x = - -` is two, and that of `x = - - 1` is zero. A `!` counts as a `-` does.
fn prefixes()
    ensures two { depth (tokens (IsName ∷ IsSymbol 22 ∷ IsSymbol 17 ∷ IsSymbol 17 ∷ [])) ≡ 2 }
    ensures ended { depth (tokens (IsName ∷ IsSymbol 22 ∷ IsSymbol 17 ∷ IsSymbol 17
        ∷ IsNumber (pos 1) ∷ [])) ≡ 0 }
    ensures logical_not { depth (tokens (IsSymbol 21 ∷ IsSymbol 17 ∷ IsSymbol 21 ∷ [])) ≡ 3 }
{}

/// A `-` after an operand, as in `a - b`, `1 - b` and `( a ) - b`, is not a prefix operator; the second `-` of `a - - b` is.
fn no_prefix()
    ensures after_name { depth (tokens (IsName ∷ IsSymbol 17 ∷ [])) ≡ 0 }
    ensures after_number { depth (tokens (IsNumber (pos 1) ∷ IsSymbol 17 ∷ [])) ≡ 0 }
    ensures after_bracket { depth (tokens (IsSymbol 0 ∷ IsName ∷ IsSymbol 1 ∷ IsSymbol 17 ∷ []))
        ≡ 0 }
    ensures second { depth (tokens (IsName ∷ IsSymbol 17 ∷ IsSymbol 17 ∷ [])) ≡ 1 }
    ensures ended { depth (tokens (IsName ∷ IsSymbol 17 ∷ IsName ∷ [])) ≡ 0 }
{}

/// The operand of `-` in `- head ( a )` and in `- f ( a )` ends with the closing bracket.
fn prefixed_call()
    ensures word_value { depth (tokens (IsSymbol 17 ∷ IsWord 15 ∷ [])) ≡ 1 }
    ensures inside { depth (tokens (IsSymbol 17 ∷ IsWord 15 ∷ IsSymbol 0 ∷ IsName ∷ [])) ≡ 2 }
    ensures closed { depth (tokens (IsSymbol 17 ∷ IsWord 15 ∷ IsSymbol 0 ∷ IsName ∷ IsSymbol 1
        ∷ [])) ≡ 0 }
    ensures in_field { depth (tokens (IsSymbol 17 ∷ IsName ∷ IsSymbol 0 ∷ [])) ≡ 2 }
    ensures field_closed { depth (tokens (IsSymbol 17 ∷ IsName ∷ IsSymbol 0 ∷ IsName ∷ IsSymbol 1
        ∷ [])) ≡ 0 }
{}

/// As many open brackets as the limit are within it; one more, or a `-` more, is too deep.
fn deepest()
    ensures at_most { depth (tokens (replicate depth_limit (IsSymbol 0))) ≡ depth_limit }
    ensures above { depth (tokens (replicate (depth_limit + 1) (IsSymbol 0))) ≡ depth_limit + 1 }
    ensures with_minus { depth (tokens (replicate depth_limit (IsSymbol 0) ++ IsSymbol 17 ∷ []))
        ≡ depth_limit + 1 }
{}
