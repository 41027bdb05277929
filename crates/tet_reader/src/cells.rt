ghost use Rattle.std.specs.Prelude.{◌≡◌, ◌+◌, ◌-◌, ◌<◌, ◌≤◌, ◌^◌, ◌++◌, ◌∷◌, [], drop, length};
ghost use Rattle.liszt_base.specs.Corners.{are_different as AreDifferent};
ghost use Rattle.liszt_base.specs.declared.answers.MeshWhat.TheVariants.{CornerTwice};
ghost use Rattle.text_scan.specs.Rows.{row_at};
ghost use Rattle.tet_reader.specs.Tests.{unless, row_tests};
ghost use Rattle.tet_reader.specs.Internal.RowKinds.{IsCorner, corner_of, region_of as RegionOf};
ghost use Rattle.tet_reader.specs.Points.{IsCellRow, AreNumbered, Cells};
ghost use Rattle.tet_reader.specs.Faults.{cell_words, row_corners, first_number as FirstNumber, ele_fault, cells_fault};
ghost use Rattle.tet_reader.specs.Answers.{Reads, SpellMesh};
ghost use Rattle.tet_reader.specs.Internal.RowReading.{HeadsEle, ReadsItem, ReadsRows};

use crate::headers::{EleHeader, ele_header, fault_with_count, first_number};
use crate::kinds::RowKind;
use crate::misfit::first_misfit;
use crate::number_row::NumberRow;
use liszt_base::{
    CellList, MeshFault, MeshFile, MeshWhat, Point, PointTable, RawCell, RawMesh, Refused,
};
use std::alloc::Global;
use text_scan::Rows;

/// The mesh of these points and the cells that the rows of an ele file spell, with corners as indices of points, from 0, and regions in
/// millionths. Other rows, a repeated cell and a face of three cells are refused with the first fault. The points are dropped on an
/// error.
pub fn read_cells(
    alloc: Global,
    rows: &Rows,
    points: PointTable,
) -> Result<RawMesh, Refused<MeshFault>>
    requires { length points.list < 2 ^ 32 }
    ensures { Reads (SpellMesh points rows.now) (cells_fault
        (length points.list) points.base rows.now) result }
{
    let cells = read_cell_list(alloc, rows, points.list.as_slice(), points.base)?;
    match first_misfit(alloc, cells.as_slice())? {
        Some(misfit) => {
            let line = rows.line(misfit.place + 1);
            Err(Refused::Fault(fault_with_count(MeshFile::Ele, 0, line, misfit.what)))
        }
        None => Ok(RawMesh::new(points, cells)),
    }
}

/// The cells of an ele file, without a test of the whole mesh.
fn read_cell_list(
    alloc: Global,
    rows: &Rows,
    points: &[Point],
    base: u32,
) -> Result<CellList, Refused<MeshFault>>
    requires { length points.now < 2 ^ 32 }
    ensures { Reads (Cells rows.now.rows points.now base)
        (ele_fault (length points.now) base rows.now) result }
{
    let count = points.len() as u32;
    let header = match ele_header(rows, count, base) {
        Ok(header) => header,
        Err(fault) => return Err(Refused::Fault(fault)),
    };
    let cells = cell_rows(alloc, rows, header, first_number(rows), count, base)?;
    if cells.as_slice().len() < header.cells as usize {
        let fault = fault_with_count(
            MeshFile::Ele,
            header.cells,
            rows.last_line(),
            MeshWhat::Missing,
        );
        return Err(Refused::Fault(fault));
    }
    Ok(cells)
}

/// The cells of the rows after the header.
fn cell_rows(
    alloc: Global,
    rows: &Rows,
    header: EleHeader,
    first: u32,
    points: u32,
    base: u32,
) -> Result<CellList, Refused<MeshFault>>
    requires heads { HeadsEle rows.now.rows header }
    requires first { first ≡ FirstNumber (drop 1 rows.now.rows) }
    ensures { ReadsRows (AreNumbered (IsCellRow (record {
      attributes = header.attributes;
      points = points;
      base = base;
    })) first (drop 1 rows.now.rows)) header.cells rows.now.rows (ele_fault points base rows.now)
        result }
{
    let mut cells = CellList::new(alloc);
    let mut numbers = NumberRow::new();
    for place in 0..rows.len() - 1 {
        match cell_row(rows, place, header, first, points, base, &mut numbers) {
            Ok(cell) => cells.push(cell)?,
            Err(what) => {
                let line = rows.line(place + 1);
                let fault = fault_with_count(MeshFile::Ele, header.cells, line, what);
                return Err(Refused::Fault(fault));
            }
        }
    }
    Ok(cells)
}

/// The cell of the row at index `place` after the header.
fn cell_row(
    rows: &Rows,
    place: usize,
    header: EleHeader,
    first: u32,
    points: u32,
    base: u32,
    numbers: &mut NumberRow,
) -> Result<RawCell, MeshWhat>
    requires heads { HeadsEle rows.now.rows header }
    requires place { place + 1 < length rows.now.rows }
    requires first { first ≤ 1 }
    ensures { ReadsItem (row_tests header.cells place
        (cell_words header.attributes points base (first + place))
        (row_at rows.now.rows (place + 1)).words ++ unless
        (AreDifferent (row_corners base (row_at rows.now.rows (place + 1)).words)) CornerTwice ∷ [])
        (IsCellRow (record { attributes = header.attributes; points = points; base = base })
        (first + place) (row_at rows.now.rows (place + 1)).words) result }
{
    let kind = RowKind::CellRow(header.attributes, base, points);
    match kind.read_row(rows, place, header.cells, first, numbers) {
        Ok(()) => {
            let cell = cell_of(header, base, numbers);
            if are_different(cell.corners) {
                Ok(cell)
            } else {
                Err(MeshWhat::CornerTwice)
            }
        }
        Err(what) => Err(what),
    }
}

/// The cell with the numbers of its row.
fn cell_of(header: EleHeader, base: u32, numbers: &NumberRow) -> RawCell
    requires words { length numbers.now ≡ 5 + header.attributes }
    requires a { IsCorner base numbers.now 1 }
    requires b { IsCorner base numbers.now 2 }
    requires c { IsCorner base numbers.now 3 }
    requires d { IsCorner base numbers.now 4 }
    ensures { result ≡ record {
      corners = corner_of base numbers.now 1
          ∷ corner_of base numbers.now 2 ∷ corner_of base numbers.now 3 ∷ corner_of base numbers.now 4
          ∷ [];
      region = RegionOf header.attributes numbers.now;
    } }
{
    RawCell {
        corners: [
            corner_at(base, numbers, 1),
            corner_at(base, numbers, 2),
            corner_at(base, numbers, 3),
            corner_at(base, numbers, 4),
        ],
        region: region_of(header, numbers),
    }
}

/// A corner among the numbers of a cell's row, as the index of its point.
fn corner_at(base: u32, numbers: &NumberRow, place: usize) -> u32
    requires inside { place < length numbers.now }
    requires corner { IsCorner base numbers.now place }
    ensures { result ≡ corner_of base numbers.now place }
{
    (numbers.at(place).unsigned_abs() - u64::from(base)) as u32
}

/// The region among the numbers of a cell's row, 0 where there is no attribute.
fn region_of(header: EleHeader, numbers: &NumberRow) -> i64
    requires { length numbers.now ≡ 5 + header.attributes }
    ensures { result ≡ RegionOf header.attributes numbers.now }
{
    if header.attributes > 0 {
        numbers.at(5)
    } else {
        0
    }
}

/// Whether no corner is repeated.
fn are_different(corners: [u32; 4]) -> bool
    ensures { result ≡ AreDifferent corners }
{
    let [a, b, c, d] = corners;
    !(b == a || c == a || d == a) && !(c == b || d == b) && c != d
}
