//! The nodes of the Rust tree as nodes of the definitions: each function makes one node of its parts, and its contract says which
//! node of the definitions that is.
#![allow(dead_code)]

ghost use Rattle.std.specs.Prelude.{◌≡◌, map};
ghost use Rattle.std.specs.Option.{option_map};
ghost use Rattle.liszt_tree.specs.Tree as Tree;
ghost use Rattle.liszt_tree.specs.Tree.{expression, statement_tree, item_tree, program_tree, links_of, body_of, main_of};

use crate::tree::{Expr, How, Item, ItemList, Level, LinkList, Name, Program, Rel, Stmt, StmtList};
use liszt_base::{Kind, Place, SetName};
use sqlite_items::Boxed;

/// A number.
fn number(place: Place, value: i64) -> Expr
    ensures { expression result ≡ Tree.Number place value }
{
    Expr::Number { place, value }
}

/// A field with its argument.
fn field_value(place: Place, name: Name, arg: Boxed<Expr>) -> Expr
    ensures { expression result ≡ Tree.Field place name (expression arg) }
{
    Expr::Field { place, name, arg }
}

/// An orientation of an element, towards another.
fn towards(place: Place, arg: Boxed<Expr>, to: Boxed<Expr>) -> Expr
    ensures { expression result ≡ Tree.Towards place (expression arg) (expression to) }
{
    Expr::Towards { place, arg, to }
}

/// A chain, with its links in their order.
fn chain(level: Level, first: Boxed<Expr>, rest: LinkList) -> Expr
    ensures { expression result ≡ Tree.Chain level (expression first)
        (links_of (map (λ l. (l.op, l.place, expression l.arg)) rest)) }
{
    Expr::Chain { level, first, rest }
}

/// A comparison.
fn comparison(place: Place, rel: Rel, left: Boxed<Expr>, right: Boxed<Expr>) -> Expr
    ensures { expression result ≡ Tree.Compare place rel (expression left) (expression right) }
{
    Expr::Compare {
        place,
        rel,
        left,
        right,
    }
}

/// An assignment in a body, to a field with its argument or to a name.
fn assignment(place: Place, name: Name, target: Option<Expr>, how: How, value: Expr) -> Stmt
    ensures { statement_tree result ≡ Tree.Assign place name (option_map expression target) how
        (expression value) }
{
    Stmt::Assign {
        place,
        name,
        target,
        how,
        value,
    }
}

/// An `if` in a body.
fn branch(place: Place, test: Expr, yes: StmtList, no: StmtList, has_else: bool) -> Stmt
    ensures { statement_tree result ≡ Tree.If place (expression test)
        (body_of (map statement_tree yes)) (body_of (map statement_tree no)) has_else }
{
    Stmt::If {
        place,
        test,
        yes,
        no,
        has_else,
    }
}

/// A loop over a set of an element.
fn set_loop(
    place: Place,
    name: Name,
    at: Place,
    set: SetName,
    set_at: Place,
    arg: Expr,
    body: StmtList,
) -> Stmt
    ensures { statement_tree result ≡ Tree.For place name at set set_at (expression arg)
        (body_of (map statement_tree body)) }
{
    Stmt::For {
        place,
        name,
        at,
        set,
        set_at,
        arg,
        body,
    }
}

/// An `if` of the main program.
fn main_branch(place: Place, test: Expr, yes: ItemList, no: ItemList, has_else: bool) -> Item
    ensures { item_tree result ≡ Tree.MainIf place (expression test) (main_of (map item_tree yes))
        (main_of (map item_tree no)) has_else }
{
    Item::If {
        place,
        test,
        yes,
        no,
        has_else,
    }
}

/// A comprehension.
fn comprehension(place: Place, name: Name, at: Place, over: Kind, body: StmtList) -> Item
    ensures { item_tree result ≡ Tree.MainFor place name at over
        (body_of (map statement_tree body)) }
{
    Item::For {
        place,
        name,
        at,
        over,
        body,
    }
}

/// A program.
fn program(items: ItemList) -> Program
    ensures { program_tree result ≡ main_of (map item_tree items) }
{
    Program { items }
}
