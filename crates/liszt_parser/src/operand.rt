//! The operand of a prefix operator, token by token, and the counts of the tokens that give their depth.
ghost use Rattle.std.specs.Prelude.{◌≡◌, ◌<◌, ◌≤◌, ◌+◌, ◌^◌, ◌&&◌, ◌||◌, not, IfOk};
ghost use Rattle.std.specs.List.{All, count_by, filter_map};
ghost use Rattle.liszt_parser.specs.Internal.Operands.{operand_start, kind_ends_operand, is_named, is_symbol_kind, nested_brackets, operand_step, operands_step};

use liszt_base::NoMemory;
use liszt_lexer::TokenKind;
use std::alloc::Global;

/// The state of the operand of a prefix operator after some tokens, while the operand is not known to be complete.
#[derive(Clone, Copy, Debug, PartialEq, Eq)]
pub enum Operand {
    /// No tokens, or further prefix operators.
    Awaited,
    /// A name, which is the operand unless an opening bracket follows.
    Named,
    /// A reserved word, which an opening bracket has to follow.
    Worded,
    /// The number of open brackets.
    Inside(usize),
    /// Tokens with which no operand starts.
    Never,
}

impl Operand {
    /// The state after one more token; `None` where the operand was complete or the token completes it.
    pub fn step(self, kind: TokenKind) -> Option<Operand>
        requires { nested_brackets self + 1 < 2 ^ 64 }
        ensures { result ≡ operand_step self kind }
    {
        match self {
            Operand::Awaited => operand_start(kind),
            Operand::Named if is_open(kind) => Some(Operand::Inside(1)),
            Operand::Named => None,
            Operand::Worded if is_open(kind) => Some(Operand::Inside(1)),
            Operand::Inside(nested) if is_open(kind) => Some(Operand::Inside(nested + 1)),
            Operand::Inside(1) if is_close(kind) => None,
            Operand::Inside(nested) if is_close(kind) => Some(Operand::Inside(nested.saturating_sub(
                1,
            ))),
            Operand::Inside(nested) => Some(Operand::Inside(nested)),
            Operand::Worded | Operand::Never => Some(Operand::Never),
        }
    }
}

/// The state after the first token of the operand; `None` where the token is the operand.
fn operand_start(kind: TokenKind) -> Option<Operand>
    ensures { result ≡ operand_start kind }
{
    match kind {
        TokenKind::Number(_) => None,
        TokenKind::Name => Some(Operand::Named),
        TokenKind::Word(_) => Some(Operand::Worded),
        TokenKind::Symbol(0) => Some(Operand::Inside(1)),
        TokenKind::Symbol(17 | 21) => Some(Operand::Awaited),
        _ => Some(Operand::Never),
    }
}

/// Whether a token is `(`.
fn is_open(kind: TokenKind) -> bool
    ensures { result ≡ is_symbol_kind 0 kind }
{
    matches!(kind, TokenKind::Symbol(0))
}

/// Whether a token is `)`.
fn is_close(kind: TokenKind) -> bool
    ensures { result ≡ is_symbol_kind 1 kind }
{
    matches!(kind, TokenKind::Symbol(1))
}

/// Whether an operand may end with this token. A `-` after such a token is not a prefix operator.
pub fn ends_operand(kind: TokenKind) -> bool
    ensures { result ≡ kind_ends_operand kind }
{
    matches!(
        kind,
        TokenKind::Number(_) | TokenKind::Name | TokenKind::Symbol(1)
    )
}

/// Whether a token is `(` or `{`.
pub fn is_opening(kind: TokenKind) -> bool
    ensures { result ≡ (is_symbol_kind 0 kind || is_symbol_kind 2 kind) }
{
    matches!(kind, TokenKind::Symbol(0 | 2))
}

/// Whether a token is `)` or `}`.
pub fn is_closing(kind: TokenKind) -> bool
    ensures { result ≡ (is_symbol_kind 1 kind || is_symbol_kind 3 kind) }
{
    matches!(kind, TokenKind::Symbol(1 | 3))
}

/// Whether a token is a prefix operator: a `!`, or a `-` that is not after an operand.
pub fn is_prefix(after_operand: bool, kind: TokenKind) -> bool
    ensures { result ≡ (is_symbol_kind 21 kind || (is_symbol_kind 17 kind && not after_operand)) }
{
    match kind {
        TokenKind::Symbol(21) => true,
        TokenKind::Symbol(17) => !after_operand,
        _ => false,
    }
}

/// The states of the operands after one more token, without the operands that are complete.
fn step_each(alloc: Global, operands: &[Operand], kind: TokenKind) -> Result<Vec<Operand>, NoMemory>
    requires { All (λ o. nested_brackets o + 1 < 2 ^ 64) operands.now }
    ensures { IfOk result (λ next. next.items ≡ filter_map
        (λ o. operand_step o kind) operands.now) }
{
    let mut next = Vec::new(alloc);
    for operand in operands {
        if let Some(operand) = operand.step(kind) {
            next.push(operand)?;
        }
    }
    Ok(next)
}

/// The operands after one more token: the incomplete ones, and a new one after a prefix operator.
pub fn step_operands(
    alloc: Global,
    operands: &[Operand],
    prefix: bool,
    kind: TokenKind,
) -> Result<Vec<Operand>, NoMemory>
    requires { All (λ o. nested_brackets o + 1 < 2 ^ 64) operands.now }
    ensures { IfOk result (λ next. next.items ≡ operands_step prefix operands.now kind) }
{
    let mut next = step_each(alloc, operands, kind)?;
    if prefix {
        next.push(Operand::Awaited)?;
    }
    Ok(next)
}

/// The number of operands that are incomplete if no token follows. A name is complete.
pub fn count_waiting(operands: &[Operand]) -> usize
    ensures { result ≡ count_by (λ o. not (is_named o)) operands.now }
{
    operands
        .iter()
        .filter(|operand| **operand != Operand::Named)
        .count()
}

/// The counts of the tokens so far that give their depth.
#[derive(Debug, Drop)]
pub struct Nesting {
    /// The numbers of opening and of closing brackets and braces.
    pub opened: usize,
    pub closed: usize,
    /// Whether an operand may end with the last token.
    pub after_operand: bool,
    /// The operands of prefix operators that are not known to be complete.
    pub operands: Vec<Operand>,
    ghost few: { All (λ o. nested_brackets o ≤ opened) operands.items },
}
