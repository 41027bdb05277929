ghost use Rattle.std.specs.Prelude.{◌≡◌, ◌+◌, ◌^◌, ◌<◌, ◌≤◌, [], Some, length, slice_get};
ghost use Rattle.text_scan.specs.Rows.{row_at};
ghost use Rattle.tet_reader.specs.Tests.{row_tests};
ghost use Rattle.tet_reader.specs.Internal.RowKinds.{expected_words, word_tests, ReadsRow};

use crate::number_row::NumberRow;
use crate::words::{Word, read_word};
use liszt_base::MeshWhat;
use text_scan::Rows;

/// The kinds of rows: of a point, by the numbers of attributes and markers; of a cell, by the number of attributes, the number of
/// the first point and the number of points.
#[derive(Clone, Copy, Debug)]
pub enum RowKind {
    PointRow(u32, u32),
    CellRow(u32, u32, u32),
}

impl RowKind {
    /// The number of words that a row should have.
    fn words(self) -> usize
        requires { length (expected_words self 0) ≤ 69 }
        ensures { result ≡ length (expected_words self 0) }
    {
        match self {
            RowKind::PointRow(attributes, markers) => 4 + attributes as usize + markers as usize,
            RowKind::CellRow(attributes, _, _) => 5 + attributes as usize,
        }
    }

    /// The word that should be at an index of the row with this number.
    fn word(self, number: u32, place: usize) -> Word
        requires { place < length (expected_words self 0) }
        ensures { slice_get (expected_words self number) place ≡ Some result }
    {
        match self {
            _ if place == 0 => Word::Number(number),
            RowKind::PointRow(attributes, _) if place < 4 + attributes as usize => Word::Real,
            RowKind::PointRow(_, _) => Word::Marker,
            RowKind::CellRow(_, base, points) if place < 5 => Word::Corner(base, points),
            RowKind::CellRow(_, _, _) => Word::Real,
        }
    }

    /// Tests the row at index `place` after the header, of `count` rows numbered from `first`, and reads the numbers of its words.
    pub fn read_row(
        self,
        rows: &Rows,
        place: usize,
        count: u32,
        first: u32,
        numbers: &mut NumberRow,
    ) -> Result<(), MeshWhat>
        requires place { place + 1 < length rows.now.rows }
        requires few { count + first < 2 ^ 32 }
        requires short { length (expected_words self 0) ≤ 69 }
        ensures { ReadsRow (row_tests count place (expected_words self (first + place))
            (row_at rows.now.rows (place + 1)).words) (expected_words self (first + place))
            (row_at rows.now.rows (place + 1)).words numbers.new result }
    {
        if place >= count as usize {
            return Err(MeshWhat::Extra);
        }
        let words = rows.words(place + 1);
        if words < self.words() {
            return Err(MeshWhat::Missing);
        }
        if words > self.words() {
            return Err(MeshWhat::Extra);
        }
        numbers.clear();
        self.read_words(rows, place + 1, first + place as u32, numbers)
    }

    /// Reads the numbers of the words of a row.
    fn read_words(
        self,
        rows: &Rows,
        row: usize,
        number: u32,
        numbers: &mut NumberRow,
    ) -> Result<(), MeshWhat>
        requires row { row < length rows.now.rows }
        requires words { length (row_at rows.now.rows row).words ≡ length (expected_words self 0) }
        requires short { length (expected_words self 0) ≤ 69 }
        requires none { numbers.old ≡ [] }
        ensures { ReadsRow (word_tests (expected_words self number)
            (row_at rows.now.rows row).words) (expected_words self number)
            (row_at rows.now.rows row).words numbers.new result }
    {
        for place in 0..self.words() {
            match read_word(self.word(number, place), rows.word(row, place)) {
                Ok(value) => numbers.push(value),
                Err(what) => return Err(what),
            }
        }
        Ok(())
    }
}
