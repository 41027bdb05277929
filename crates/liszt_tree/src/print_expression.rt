//! The canonical text of an expression.

ghost use Rattle.std.specs.Prelude.{◌≡◌, ◌++◌, codes, map, nat_lt, OnOk};
ghost use Rattle.std.specs.Fmt.{signed_decimal};
ghost use Rattle.liszt_tree.specs.Canonical as Text;
ghost use Rattle.liszt_tree.specs.Canonical.{bracketed_text, expression_text, links_text};
ghost use Rattle.liszt_tree.specs.Tree.{expression, links_of};

use crate::tree::{Expr, Link};
use crate::words::{chain_level, fun_word, rel_text, sign_text};
use itoa::Buffer;
use liszt_base::{ByteList, NoMemory};

/// The level of the prefix operators.
const PREFIX: u8 = 6;

/// The level of the comparisons.
const COMPARISON: u8 = 3;

/// The level of an expression.
fn level_of(e: &Expr) -> u8
    ensures { result ≡ Text.level_of (expression e.now) }
{
    match e {
        Expr::Chain { level, .. } => chain_level(*level),
        Expr::Compare { .. } => COMPARISON,
        Expr::Neg { .. } | Expr::Not { .. } => PREFIX,
        _ => 7,
    }
}

/// Appends a number, in decimal digits, with its sign.
fn print_number(out: &mut ByteList, value: i64) -> Result<(), NoMemory>
    ensures { OnOk result (out.new ≡ out.old ++ signed_decimal value) }
{
    let mut buffer = Buffer::new();
    out.extend(buffer.format(value).as_bytes())
}

/// Appends a text between two blanks.
pub fn print_spaced_text(out: &mut ByteList, text: &[u8]) -> Result<(), NoMemory>
    ensures { OnOk result (out.new ≡ out.old ++ Text.spaced_text text.now) }
{
    out.extend(b" ")?;
    out.extend(text)?;
    out.extend(b" ")
}

/// Appends an expression.
#[cycle(print)]
pub fn print_expression(out: &mut ByteList, e: &Expr) -> Result<(), NoMemory>
    ensures { OnOk result (out.new ≡ out.old ++ expression_text (expression e.now)) }
{
    match e {
        Expr::Number { value, .. } => print_number(out, *value),
        Expr::Name { name, .. } => out.extend(name.as_slice()),
        Expr::Field { name, arg, .. } => print_call(out, name.as_slice(), arg.get()),
        Expr::Call { fun, arg, .. } => print_call(out, fun_word(*fun), arg.get()),
        Expr::Towards { arg, to, .. } => {
            out.extend(b"towards(")?;
            print_expression(out, arg.get())?;
            out.extend(b", ")?;
            print_expression(out, to.get())?;
            out.extend(b")")
        }
        Expr::Neg { arg, .. } => print_prefix_expression(out, b"-", arg.get()),
        Expr::Not { arg, .. } => print_prefix_expression(out, b"!", arg.get()),
        Expr::Chain { level, first, rest } => {
            let (level, first) = (chain_level(*level), first.get());
            print_operand(out, level_of(first) <= level, first)?;
            print_links(out, level, rest.as_slice())
        }
        Expr::Compare {
            rel,
            left,
            right,
            ..
        } => {
            let (left, right) = (left.get(), right.get());
            print_operand(out, level_of(left) <= COMPARISON, left)?;
            print_spaced_text(out, rel_text(*rel))?;
            print_operand(out, level_of(right) <= COMPARISON, right)
        }
    }
}

/// Appends a word and an argument in brackets.
#[cycle(print)]
fn print_call(out: &mut ByteList, word: &[u8], arg: &Expr) -> Result<(), NoMemory>
    ensures { OnOk result (out.new ≡ out.old ++ (word.now ++ codes "("
        ++ expression_text (expression arg.now) ++ codes ")")) }
{
    out.extend(word)?;
    print_operand(out, true, arg)
}

/// Appends a prefix operator and its operand.
#[cycle(print)]
fn print_prefix_expression(out: &mut ByteList, sign: &[u8], arg: &Expr) -> Result<(), NoMemory>
    ensures { OnOk result (out.new ≡ out.old ++ (sign.now
        ++ bracketed_text (nat_lt (Text.level_of (expression arg.now)) 6)
        (expression_text (expression arg.now)))) }
{
    out.extend(sign)?;
    print_operand(out, level_of(arg) < PREFIX, arg)
}

/// Appends an expression, in brackets or not.
#[cycle(print)]
fn print_operand(out: &mut ByteList, in_brackets: bool, e: &Expr) -> Result<(), NoMemory>
    ensures { OnOk result (out.new ≡ out.old ++ bracketed_text in_brackets
        (expression_text (expression e.now))) }
{
    if !in_brackets {
        return print_expression(out, e);
    }
    out.extend(b"(")?;
    print_expression(out, e)?;
    out.extend(b")")
}

/// Appends the operators of a chain, each with the operand after it.
#[cycle(print)]
fn print_links(out: &mut ByteList, level: u8, links: &[Link]) -> Result<(), NoMemory>
    ensures { OnOk result (out.new ≡ out.old ++ links_text level
        (links_of (map (λ l. (l.op, l.place, expression l.arg)) links.now))) }
{
    for link in links {
        print_spaced_text(out, sign_text(link.op))?;
        print_operand(out, level_of(&link.arg) <= level, &link.arg)?;
    }
    Ok(())
}
