ghost use Rattle.std.specs.Prelude.{◌≡◌, ◌<◌, ◌≤◌, ◌^◌, ◌&&◌, nat_abs, nat_le, pos, true, [], length, map, drop};
ghost use Rattle.std.specs.List.{list_all};
ghost use Rattle.std.specs.Str.Parse.{signed_digits_value};
ghost use Rattle.text_scan.specs.Numbers.{is_whole};
ghost use Rattle.text_scan.specs.Rows.{row_at};
ghost use Rattle.tet_reader.specs.Tests.{first_some, is_within as IsWithin};
ghost use Rattle.tet_reader.specs.Headers.{number_at, header_numbers, node_number_tests, ele_number_tests};
ghost use Rattle.tet_reader.specs.Faults.{fault_at as FaultAt, first_number as FirstNumber, node_fault, ele_fault};
ghost use Rattle.tet_reader.specs.Internal.RowReading.{HeadsNode, HeadsEle, ReadsHeader};

use crate::number_row::NumberRow;
use liszt_base::{CELL_LIMIT, MeshFault, MeshFile, MeshWhat, POINT_LIMIT};
use text_scan::{Rows, whole};

/// The greatest number of attributes of a point or a cell.
const MOST_ATTRIBUTES: u32 = 64;

/// The header of a node file: the number of points, and the numbers of attributes and markers of each point.
#[derive(Clone, Copy, Debug)]
pub struct NodeHeader {
    pub points: u32,
    pub attributes: u32,
    pub markers: u32,
}

/// The header of an ele file: the number of cells, and the number of attributes of each cell.
#[derive(Clone, Copy, Debug)]
pub struct EleHeader {
    pub cells: u32,
    pub attributes: u32,
}

/// The fault of a line. `TooMany` reports the header's count.
pub(crate) fn fault_at(file: MeshFile, count: i64, line: u32, what: MeshWhat) -> MeshFault
    ensures { result ≡ FaultAt file count line what }
{
    let number = if what == MeshWhat::TooMany { count } else { 0 };
    MeshFault {
        file,
        line,
        what,
        number,
    }
}

/// The fault of a line in a file whose header has this count.
pub(crate) fn fault_with_count(file: MeshFile, count: u32, line: u32, what: MeshWhat) -> MeshFault
    ensures { result ≡ FaultAt file (pos count) line what }
{
    fault_at(file, i64::from(count), line, what)
}

/// The header of a node file.
pub(crate) fn node_header(rows: &Rows) -> Result<NodeHeader, MeshFault>
    ensures { ReadsHeader (HeadsNode rows.now.rows) (node_fault rows.now) result }
{
    if rows.is_empty() {
        return Err(fault_at(MeshFile::Node, 0, rows.last_line(), MeshWhat::Header));
    }
    let mut numbers = NumberRow::new();
    if !read_header(rows, &[0, 3, 0, 0], &mut numbers) {
        return Err(fault_at(MeshFile::Node, 0, rows.line(0), MeshWhat::Header));
    }
    match node_number_fault(&numbers) {
        Some(what) => Err(fault_at(MeshFile::Node, numbers.at(0), rows.line(0), what)),
        None => Ok(NodeHeader {
            points: count_at(&numbers, 0),
            attributes: count_at(&numbers, 2),
            markers: count_at(&numbers, 3),
        }),
    }
}

/// The header of an ele file.
pub(crate) fn ele_header(rows: &Rows, points: u32, base: u32) -> Result<EleHeader, MeshFault>
    ensures { ReadsHeader (HeadsEle rows.now.rows) (ele_fault points base rows.now) result }
{
    if rows.is_empty() {
        return Err(fault_at(MeshFile::Ele, 0, rows.last_line(), MeshWhat::Header));
    }
    let mut numbers = NumberRow::new();
    if !read_header(rows, &[0, 4, 0], &mut numbers) {
        return Err(fault_at(MeshFile::Ele, 0, rows.line(0), MeshWhat::Header));
    }
    match ele_number_fault(&numbers) {
        Some(what) => Err(fault_at(MeshFile::Ele, numbers.at(0), rows.line(0), what)),
        None => Ok(EleHeader {
            cells: count_at(&numbers, 0),
            attributes: count_at(&numbers, 2),
        }),
    }
}

/// The number of the first row after the header: 1 where the row spells 1, otherwise 0.
pub(crate) fn first_number(rows: &Rows) -> u32
    ensures { result ≡ FirstNumber (drop 1 rows.now.rows) }
{
    if rows.len() > 1 && rows.words(1) > 0 && whole(rows.word(1, 0)) == Ok(1) {
        1
    } else {
        0
    }
}

/// Reads the numbers of a header, with the defaults for missing words, and returns whether the row is spelled as a header.
fn read_header(rows: &Rows, missing: &[i64], numbers: &mut NumberRow) -> bool
    requires some { 0 < length rows.now.rows }
    requires short { length missing.now ≤ 69 }
    requires none { numbers.old ≡ [] }
    ensures spelled { result ≡ (nat_le (length (row_at rows.now.rows 0).words)
        (length missing.now) && list_all is_whole (row_at rows.now.rows 0).words) }
    ensures numbers { result ≡ true → numbers.new ≡ header_numbers missing.now
        (row_at rows.now.rows 0).words }
{
    let words = rows.words(0);
    if words > missing.len() || !read_whole_numbers(rows, numbers) {
        return false;
    }
    numbers.extend(&missing[words..]);
    true
}

/// Reads the words of the first row as whole numbers, and returns whether all are.
fn read_whole_numbers(rows: &Rows, numbers: &mut NumberRow) -> bool
    requires some { 0 < length rows.now.rows }
    requires short { length (row_at rows.now.rows 0).words ≤ 69 }
    requires none { numbers.old ≡ [] }
    ensures spelled { result ≡ list_all is_whole (row_at rows.now.rows 0).words }
    ensures numbers { result ≡ true → numbers.new ≡ map (signed_digits_value 10)
        (row_at rows.now.rows 0).words }
{
    for place in 0..rows.words(0) {
        match whole(rows.word(0, place)) {
            Ok(number) => numbers.push(number),
            Err(_) => return false,
        }
    }
    true
}

/// The first fault of the numbers of a node file's header.
fn node_number_fault(numbers: &NumberRow) -> Option<MeshWhat>
    requires { length numbers.now ≡ 4 }
    ensures { result ≡ first_some (node_number_tests numbers.now) }
{
    if numbers.at(0) < 0 {
        Some(MeshWhat::Header)
    } else if numbers.at(0) > i64::from(POINT_LIMIT) {
        Some(MeshWhat::TooMany)
    } else if numbers.at(1) != 3 {
        Some(MeshWhat::Dimension)
    } else if !is_within(numbers.at(2), MOST_ATTRIBUTES) || !is_within(numbers.at(3), 1) {
        Some(MeshWhat::Header)
    } else {
        None
    }
}

/// The first fault of the numbers of an ele file's header.
fn ele_number_fault(numbers: &NumberRow) -> Option<MeshWhat>
    requires { length numbers.now ≡ 3 }
    ensures { result ≡ first_some (ele_number_tests numbers.now) }
{
    if numbers.at(0) < 0 {
        Some(MeshWhat::Header)
    } else if numbers.at(0) > i64::from(CELL_LIMIT) {
        Some(MeshWhat::TooMany)
    } else if numbers.at(1) == 10 {
        Some(MeshWhat::SecondOrder)
    } else if numbers.at(1) != 4 || !is_within(numbers.at(2), MOST_ATTRIBUTES) {
        Some(MeshWhat::Header)
    } else {
        None
    }
}

/// Whether the number is from 0 to `most`.
fn is_within(number: i64, most: u32) -> bool
    ensures { result ≡ IsWithin 0 most number }
{
    number >= 0 && number <= i64::from(most)
}

/// The number at an index, without its sign.
fn count_at(numbers: &NumberRow, place: usize) -> u32
    requires inside { place < length numbers.now }
    requires few { nat_abs (number_at numbers.now place) < 2 ^ 32 }
    ensures { result ≡ nat_abs (number_at numbers.now place) }
{
    numbers.at(place).unsigned_abs() as u32
}
