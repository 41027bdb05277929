//! Worked cases of the definitions, which the checker computes. Each function does nothing; its contract is the case.
#![allow(dead_code)]

ghost use Rattle.std.specs.Prelude.{◌≡◌, Some, None, [], ◌∷◌, codes, map, true, false, Ok};
ghost use Rattle.liszt_base.specs.declared.accesses.Mode.TheVariants.{Read, Reduce};
ghost use Rattle.liszt_base.specs.declared.answers.ProgramWhat.TheVariants.{NameUnknown, NameTwice, TypeMismatch, ScalarWrite, BuiltinWrite};
ghost use Rattle.liszt_base.specs.declared.elements.Kind.TheVariants.{Vertex, Edge, Face, Cell};
ghost use Rattle.liszt_base.specs.declared.elements.Op.TheVariants.{Add};
ghost use Rattle.liszt_tree.specs.Trees.{degrees};
ghost use Rattle.phase_types.specs.Internal.Cases.{at, fault, conflict_between, adds_itself, adds_and_multiplies, adds_and_writes, adds_and_takes, unknown_name, name_twice, truth_as_number, third_operand, first_operand, writes_scalar, adds_scalar_to_itself, writes_mark, edges_of_edge, unknown_in_set, edge_for_vertex, blocks, column, reads_only, reads_then_writes, scalar_as_target, scalar_as_argument, visits_again, built_in_as_name, name_of_other_block, writes_scalar_unknown, truth_for_built_in, edge_and_vertex, flipped_vertex};
ghost use Rattle.phase_types.specs.Internal.ResolvedCases.{ends_counted, ends_counted_code, fields_of_blocks, fields_of_blocks_code, slots_of_blocks, slots_of_blocks_code, slots_layout, sets_local, adds_to_scalar, field_at};
ghost use Rattle.phase_types.specs.Layouts.{number_fits, statement_fits};
ghost use Rattle.phase_types.specs.Checked.{checked_program};
ghost use Rattle.phase_types.specs.Environments.{fields_of, scalars_of, comprehensions_of, scopes_of};
ghost use Rattle.phase_types.specs.Walk.{check_fault, mode_of, scalar_mode_of};

/// Each fault at its place; for a phase conflict also the place of the first access.
fn faults()
    ensures unknown { check_fault unknown_name ≡ fault NameUnknown 1 7 }
    ensures twice { check_fault name_twice ≡ fault NameTwice 1 16 }
    ensures mismatch { check_fault truth_as_number ≡ fault TypeMismatch 1 11 }
    ensures third_operand { check_fault third_operand ≡ fault TypeMismatch 1 13 }
    ensures first_operand { check_fault first_operand ≡ fault TypeMismatch 1 16 }
    ensures read_and_reduced { check_fault adds_itself ≡ conflict_between (at 2 34) (at 2 26) }
    ensures two_operators { check_fault adds_and_multiplies ≡ conflict_between (at 2 37) (at 2 26) }
    ensures scalar_written { check_fault writes_scalar ≡ fault ScalarWrite 2 26 }
    ensures scalar_conflict { check_fault adds_scalar_to_itself
        ≡ conflict_between (at 2 31) (at 2 26) }
    ensures built_in_written { check_fault writes_mark ≡ fault BuiltinWrite 1 29 }
    ensures no_such_set { check_fault edges_of_edge ≡ fault TypeMismatch 1 36 }
{}

/// The fault is that of the earlier step: a phase conflict before an unknown name in the value, the kind of the target before the
/// value, and the argument of a set before the set. `-=` is a reduction by `+`.
fn first_of_two()
    ensures conflict_before_value { check_fault adds_and_writes
        ≡ conflict_between (at 2 37) (at 2 26) }
    ensures target_before_value { check_fault edge_for_vertex ≡ fault TypeMismatch 2 26 }
    ensures argument_before_set { check_fault unknown_in_set ≡ fault NameUnknown 1 50 }
    ensures one_operator { check_fault adds_and_takes ≡ None }
{}

/// The order of steps and the places of faults: a conflict also names the first access; a target and the argument of a set are walked
/// with their accesses; a name is tested before a body, and `=` to a scalar before the value. Names end with their block.
fn steps_of_the_walk()
    ensures first_access { check_fault reads_then_writes ≡ conflict_between (column 3) (column 1) }
    ensures in_target { check_fault scalar_as_target ≡ conflict_between (column 5) (column 3) }
    ensures in_argument { check_fault scalar_as_argument ≡ conflict_between (column 5) (column 3) }
    ensures name_before_body { check_fault visits_again ≡ fault NameTwice 1 7 }
    ensures built_in_name { check_fault built_in_as_name ≡ fault NameTwice 1 7 }
    ensures other_block { check_fault name_of_other_block ≡ fault NameUnknown 1 2 }
    ensures write_before_value { check_fault writes_scalar_unknown ≡ fault ScalarWrite 1 3 }
    ensures first_operator { check_fault truth_for_built_in ≡ fault TypeMismatch 1 7 }
    ensures other_kinds { check_fault edge_and_vertex ≡ fault TypeMismatch 1 2 }
    ensures no_flip { check_fault flipped_vertex ≡ fault TypeMismatch 1 3 }
{}

/// Names end with their block, and fields, scalars, comprehensions and scopes are numbered in the order of the text.
fn parts_of_a_program()
    ensures typed { check_fault blocks ≡ None }
    ensures names { map (λ f. f.name) (fields_of blocks) ≡ codes "B" ∷ codes "B" ∷ codes "C" ∷ [] }
    ensures kinds { map (λ f. f.kind) (fields_of blocks) ≡ Edge ∷ Face ∷ Cell ∷ [] }
    ensures scopes { map (λ f. f.scope) (fields_of blocks) ≡ 1 ∷ 2 ∷ 0 ∷ [] }
    ensures scalars { scalars_of blocks ≡ codes "i" ∷ codes "x" ∷ codes "x" ∷ [] }
    ensures parents { scopes_of blocks ≡ 0 ∷ 0 ∷ 0 ∷ 0 ∷ [] }
    ensures comprehensions { map (λ c. c.over) (comprehensions_of blocks) ≡ Vertex ∷ [] }
{}

/// Modes of the fields and scalars of a comprehension: `Deg(head(e)) += 1` reduces field 6, and nothing else is accessed.
fn modes()
    ensures reduced { mode_of degrees 0 6 ≡ Some (Reduce Add) }
    ensures other_field { mode_of degrees 0 0 ≡ None }
    ensures read { mode_of reads_only 0 6 ≡ Some Read }
    ensures no_comprehension { mode_of degrees 1 6 ≡ None }
    ensures scalar { scalar_mode_of adds_scalar_to_itself 0 0 ≡ Some (Reduce Add) }
    ensures degrees_typed { check_fault degrees ≡ None }
{}

/// Checked programs, written out: the head for the head, and the tail for the tail; numbers of fields, scopes and comprehensions in the
/// order of the text; a slot of its own for each declaration.
fn checked_programs()
    ensures ends { checked_program ends_counted ≡ Ok ends_counted_code }
    ensures fields { checked_program fields_of_blocks ≡ Ok fields_of_blocks_code }
    ensures slots { checked_program slots_of_blocks ≡ Ok slots_of_blocks_code }
{}

/// Code fits a layout up to its last slot and scalar, and a field at an element of its kind; the number 5 is no field.
fn fitting_code()
    ensures last_slot { statement_fits slots_layout (sets_local 1) ≡ true }
    ensures no_slot { statement_fits slots_layout (sets_local 2) ≡ false }
    ensures last_scalar { statement_fits slots_layout (adds_to_scalar 0) ≡ true }
    ensures no_scalar { statement_fits slots_layout (adds_to_scalar 1) ≡ false }
    ensures right_kind { number_fits slots_layout (field_at 4 3) ≡ true }
    ensures wrong_kind { number_fits slots_layout (field_at 4 0) ≡ false }
    ensures no_field { number_fits slots_layout (field_at 5 3) ≡ false }
{}
