//! Names of fields, and the words of their kinds, by the fields' numbers.
ghost use Rattle.std.specs.Prelude.{◌≡◌, ◌≤◌, length};
ghost use Rattle.phase_types.specs.Walk.{OfField};
ghost use Rattle.liszt_report.specs.Texts.{field_kind_word, subject_name as SubjectName};

use crate::word::kind_word;
use liszt_base::Kind;
use phase_types::Checked;
use sqlite_items::at;

/// The name of a field.
pub fn field_name(c: &Checked, field: u32) -> &[u8]
    ensures { result.now ≡ SubjectName c.now (OfField field) }
{
    match field {
        0 => b"PosX",
        1 => b"PosY",
        2 => b"PosZ",
        3 => b"Mark",
        4 => b"Region",
        5 => b"",
        _ => match at(c.fields(), field as usize - 6) {
            Some(info) => info.name.as_slice(),
            None => b"",
        },
    }
}

/// The word of the kind of a field's elements.
pub fn field_kind_word(c: &Checked, field: u32) -> &'static [u8]
    ensures word { result.now ≡ field_kind_word c.now field }
    ensures short { length result.now ≤ 6 }
{
    match field {
        0..=3 => kind_word(Kind::Vertex),
        4 => kind_word(Kind::Cell),
        5 => b"",
        _ => match at(c.fields(), field as usize - 6) {
            Some(info) => kind_word(info.kind),
            None => b"",
        },
    }
}
