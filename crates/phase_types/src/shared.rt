//! A checked program and its parts may be shared by threads, and moved between them.

ghost use Rattle.std.specs.Prelude.{◌≡◌};
ghost use denote.Param.Send.{IsSend, IsSync};

use crate::checker::Checked;
use crate::info::FieldInfo;
use liszt_tree::Name;
use resolved_code::{ComprehensionCode, ItemCode};
use sqlite_items::Items;

/// One, for a type whose values may be shared and moved.
fn shared<T: Send + Sync>() -> usize
    ensures one { result ≡ 1 }
    ensures send { IsSend T.row }
    ensures sync { IsSync T.row }
{
    1
}

/// The number of types that may be shared and moved: those of the parts of a checked program, and its own.
#[allow(dead_code)]
fn shared_types() -> usize
    ensures { result ≡ 6 }
{
    shared::<Items<FieldInfo>>()
        + shared::<Items<Name>>()
        + shared::<Items<u32>>()
        + shared::<Items<ComprehensionCode>>()
        + shared::<Items<ItemCode>>()
        + shared::<Checked>()
}
