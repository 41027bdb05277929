ghost use Rattle.std.specs.Prelude.{◌≡◌, ◌+◌, ◌<◌, ◌≤◌, drop, length};
ghost use Rattle.text_scan.specs.Rows.{row_at};
ghost use Rattle.tet_reader.specs.Tests.{row_tests};
ghost use Rattle.tet_reader.specs.Points.{IsPointRow, AreNumbered};
ghost use Rattle.tet_reader.specs.Faults.{point_words, first_number as FirstNumber, node_fault};
ghost use Rattle.tet_reader.specs.Headers.{attribute_limit, number_at};
ghost use Rattle.tet_reader.specs.Internal.RowKinds.{mark_of as MarkOf};
ghost use Rattle.tet_reader.specs.Answers.{Reads, SpellTable};
ghost use Rattle.tet_reader.specs.Internal.RowReading.{HeadsNode, ReadsItem, ReadsRows};

use crate::headers::{NodeHeader, fault_with_count, first_number, node_header};
use crate::kinds::RowKind;
use crate::number_row::NumberRow;
use liszt_base::{MeshFault, MeshFile, MeshWhat, Point, PointList, PointTable, Refused};
use std::alloc::Global;
use text_scan::Rows;

/// The points that the rows of a node file spell, with coordinates in millionths, and the number of the first point, 0 or 1 (0 where
/// there is none). Other rows are refused with their first fault.
pub fn read_points(alloc: Global, rows: &Rows) -> Result<PointTable, Refused<MeshFault>>
    ensures { Reads (SpellTable rows.now) (node_fault rows.now) result }
{
    let header = match node_header(rows) {
        Ok(header) => header,
        Err(fault) => return Err(Refused::Fault(fault)),
    };
    let base = first_number(rows);
    let list = point_rows(alloc, rows, header, base)?;
    if list.as_slice().len() < header.points as usize {
        let fault = fault_with_count(
            MeshFile::Node,
            header.points,
            rows.last_line(),
            MeshWhat::Missing,
        );
        return Err(Refused::Fault(fault));
    }
    Ok(PointTable { list, base })
}

/// The points of the rows after the header.
fn point_rows(
    alloc: Global,
    rows: &Rows,
    header: NodeHeader,
    first: u32,
) -> Result<PointList, Refused<MeshFault>>
    requires heads { HeadsNode rows.now.rows header }
    requires first { first ≡ FirstNumber (drop 1 rows.now.rows) }
    ensures { ReadsRows (AreNumbered (IsPointRow header.attributes header.markers) first
        (drop 1 rows.now.rows)) header.points rows.now.rows (node_fault rows.now) result }
{
    let mut points = PointList::new(alloc);
    let mut numbers = NumberRow::new();
    for place in 0..rows.len() - 1 {
        match point_row(rows, place, header, first, &mut numbers) {
            Ok(point) => points.push(point)?,
            Err(what) => {
                let line = rows.line(place + 1);
                let fault = fault_with_count(MeshFile::Node, header.points, line, what);
                return Err(Refused::Fault(fault));
            }
        }
    }
    Ok(points)
}

/// The point of the row at index `place` after the header.
fn point_row(
    rows: &Rows,
    place: usize,
    header: NodeHeader,
    first: u32,
    numbers: &mut NumberRow,
) -> Result<Point, MeshWhat>
    requires heads { HeadsNode rows.now.rows header }
    requires place { place + 1 < length rows.now.rows }
    requires first { first ≤ 1 }
    ensures { ReadsItem (row_tests header.points place
        (point_words header.attributes header.markers (first + place))
        (row_at rows.now.rows (place + 1)).words) (IsPointRow header.attributes header.markers
        (first + place) (row_at rows.now.rows (place + 1)).words) result }
{
    let kind = RowKind::PointRow(header.attributes, header.markers);
    match kind.read_row(rows, place, header.points, first, numbers) {
        Ok(()) => Ok(point_of(header, numbers)),
        Err(what) => Err(what),
    }
}

/// The point with the numbers of its row.
fn point_of(header: NodeHeader, numbers: &NumberRow) -> Point
    requires words { length numbers.now ≡ 4 + header.attributes + header.markers }
    requires few { header.attributes ≤ attribute_limit }
    ensures { result ≡ record {
      x = number_at numbers.now 1;
      y = number_at numbers.now 2;
      z = number_at numbers.now 3;
      mark = MarkOf header.attributes header.markers numbers.now;
    } }
{
    Point {
        x: numbers.at(1),
        y: numbers.at(2),
        z: numbers.at(3),
        mark: mark_of(header, numbers),
    }
}

/// The mark among the numbers of a point's row, 0 where there is none.
fn mark_of(header: NodeHeader, numbers: &NumberRow) -> i64
    requires words { length numbers.now ≡ 4 + header.attributes + header.markers }
    requires few { header.attributes ≤ attribute_limit }
    ensures { result ≡ MarkOf header.attributes header.markers numbers.now }
{
    if header.markers > 0 {
        numbers.at(4 + header.attributes as usize)
    } else {
        0
    }
}
