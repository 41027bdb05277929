//! Worked cases of the definitions, which the checker computes, and one call of each writer at concrete types.
#![allow(dead_code)]

ghost use Rattle.std.specs.Prelude.{◌≡◌, true, pos, neg_ℤ, [], ◌∷◌, ◌++◌, codes};
ghost use Rattle.liszt_base.specs.declared.answers.LimitWhat.TheVariants.{Visits};
ghost use Rattle.liszt_base.specs.declared.elements.Kind.TheVariants.{Edge};
ghost use Rattle.liszt_base.specs.Limits.{visit_limit};
ghost use Rattle.liszt_report.specs.declared.ended.Ended.TheVariants.{Trap as OfTrap};
ghost use Rattle.liszt_report.specs.Endings.{ending_text, limit_line, status};
ghost use Rattle.liszt_report.specs.Internal.Cases.{few, overflow_in_main, tens, three_fields, zero_at};
ghost use Rattle.liszt_report.specs.Texts.{check_text, fields_text, prints_text};

use crate::check::write_check;
use crate::fields::write_fields;
use crate::prints::write_prints;
use crate::values::Values;
use liszt_io::{MemorySink, WriteFault};
use mesh_topology::Mesh;
use phase_types::Checked;

/// Traps, and a limit of a comprehension.
fn endings()
    ensures status { status (OfTrap overflow_in_main) ≡ 7 }
    ensures main { ending_text (OfTrap overflow_in_main) ≡ codes "trap Overflow 4:9 main\n" }
    ensures edge { ending_text (OfTrap (zero_at record { kind = Edge; id = 12; flipped = true }))
        ≡ codes "trap ZeroDivide 2:63 edge 12\n" }
    ensures visits { limit_line (Visits 3) visit_limit
        ≡ codes "limit Visits comp 3 over 268435456\n" }
{}

/// A line for each number.
fn prints()
    ensures none { prints_text [] ≡ [] }
    ensures two { prints_text (pos 7 ∷ neg_ℤ (pos 20) ∷ []) ≡ codes "7\n-20\n" }
{}

/// The fields of the outermost scope, by their numbers.
fn fields()
    ensures { fields_text few tens three_fields.fields ≡ codes "Deg 0 16\nDeg 1 17\nSum 0 18\n" }
{}

/// Fields precede scalars, and both ascend, whatever the order of the accesses.
fn check()
    ensures { check_text (codes "print 1;\n") three_fields few
        ≡ codes "print 1;\nphase 0 PosX read\nphase 0 Deg add\nphase 0 top max\n"
        ++ codes "vertices 2 edges 6 faces 4 cells 1\n" }
{}

/// Fields that are 0 everywhere.
#[derive(Drop)]
struct Zeros;

impl Values for Zeros {
    ghost use Rattle.std.specs.Prelude.{Some, pos};

    ghost values = { λ _ _ _. Some (pos 0) };

    fn value(&mut self, _field: u32, _id: u32) -> i64 {
        0
    }
}

/// Each writer over a sink in memory.
fn write_all(out: &mut MemorySink, c: &Checked, m: &Mesh) -> Result<(), WriteFault> {
    write_prints(out, &[1])?;
    write_fields(out, c, m, &mut Zeros)?;
    write_check(out, b"", c, m)
}
