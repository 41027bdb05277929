use crate::info::FieldInfo;
use crate::names::Names;
use liszt_tree::Name;
use resolved_code::{ComprehensionCode, ItemCodes};
use sqlite_items::Items;

/// The main program so far: the visible names, the scope, and the declared fields, the scalars, the scopes by their parents and the
/// comprehensions of the text so far, each numbered by its index, fields from 6 on.
#[derive(Drop)]
pub struct MainState {
    pub names: Names,
    pub scope: u32,
    pub fields: Items<FieldInfo>,
    pub scalars: Items<Name>,
    pub scopes: Items<u32>,
    pub comprehensions: Items<ComprehensionCode>,
}

/// A checked program: its declared fields, its scalars, its scopes by their parents and its comprehensions, each numbered by its index,
/// fields from 6 on; and the items of its main part.
#[derive(Drop)]
pub struct CheckedProgram {
    pub fields: Items<FieldInfo>,
    pub scalars: Items<Name>,
    pub scopes: Items<u32>,
    pub comprehensions: Items<ComprehensionCode>,
    pub items: ItemCodes,
}
