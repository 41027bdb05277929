ghost use Rattle.std.specs.Prelude.{◌≡◌};
ghost use Rattle.tet_reader.specs.Tests.{is_corner};
ghost use Rattle.tet_reader.specs.Internal.RowKinds.{ReadsWord};
ghost use Rattle.tet_reader.specs.declared.words.Word.TheVariants.{Marker};

use liszt_base::MeshWhat;
use text_scan::{NumberFault, millionths, whole};

/// What a word of a row should be: the number of the row; a coordinate or an attribute; a marker; or a corner, by the number of the
/// first point and the number of points.
#[derive(Clone, Copy, Debug)]
pub enum Word {
    Number(u32),
    Real,
    Marker,
    Corner(u32, u32),
}

/// The number that a word spells as what it should be. Another number of a row is `NumberOrder`; a corner that is not the number of
/// a point is `CornerRange`.
pub(crate) fn read_word(expected: Word, text: &[u8]) -> Result<i64, MeshWhat>
    ensures { ReadsWord expected text.now result }
{
    match expected {
        Word::Number(number) => {
            let value = read_whole_number(text)?;
            if value == i64::from(number) {
                Ok(value)
            } else {
                Err(MeshWhat::NumberOrder)
            }
        }
        Word::Real => match millionths(text) {
            Ok(value) => Ok(value),
            Err(NumberFault::BadNumber) => Err(MeshWhat::BadNumber),
            Err(NumberFault::CoordRange) => Err(MeshWhat::CoordRange),
        },
        Word::Marker => read_whole_number(text),
        Word::Corner(base, points) => {
            let value = read_whole_number(text)?;
            if is_corner(base, points, value) {
                Ok(value)
            } else {
                Err(MeshWhat::CornerRange)
            }
        }
    }
}

/// The whole number that a word spells, or `BadNumber`.
fn read_whole_number(text: &[u8]) -> Result<i64, MeshWhat>
    ensures { ReadsWord Marker text.now result }
{
    match whole(text) {
        Ok(value) => Ok(value),
        Err(_) => Err(MeshWhat::BadNumber),
    }
}

/// Whether the value is the number of a point.
fn is_corner(base: u32, points: u32, value: i64) -> bool
    ensures { result ≡ is_corner base points value }
{
    value >= i64::from(base) && value < i64::from(base) + i64::from(points)
}
