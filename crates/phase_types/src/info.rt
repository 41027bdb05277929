use liszt_base::Kind;
use liszt_tree::Name;

/// A declared field: its name, the kind of its elements, and the scope that declares it.
#[derive(Debug, Drop)]
pub struct FieldInfo {
    pub name: Name,
    pub kind: Kind,
    pub scope: u32,
}
