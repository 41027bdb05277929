//! Worked cases of the definitions, which the checker computes. Each function does nothing; its contract is the case.
#![allow(dead_code)]

ghost use Rattle.std.specs.Prelude.{◌≡◌, [], ◌∷◌, None, Some, codes, true, false, Ok, pos, neg_ℤ};
ghost use Rattle.std.specs.Str.{bytes_eq};
ghost use Rattle.liszt_base.specs.declared.accesses.Mode.TheVariants.{Read, Reduce, Write};
ghost use Rattle.liszt_base.specs.declared.answers.TrapKind.TheVariants.{Overflow, ZeroDivide};
ghost use Rattle.liszt_base.specs.declared.elements.Kind.TheVariants.{Edge, Vertex};
ghost use Rattle.liszt_base.specs.declared.elements.Op.TheVariants.{Add, Min};
ghost use Rattle.liszt_tree.specs.declared.tree.Fun.TheVariants.{Head, Id, Outside, Tail};
ghost use Rattle.liszt_tree.specs.declared.tree.How.TheVariants.{Set, Fold, Less};
ghost use Rattle.liszt_tree.specs.declared.tree.Sign.TheVariants.{Plus, Minus, Times, Over, Rest};
ghost use Rattle.liszt_tree.specs.Tree.{Towards, nowhere};
ghost use Rattle.liszt_tree.specs.Trees.{name};
ghost use Rattle.topo_operators.specs.Operators.{unflipped};
ghost use Rattle.kernel_eval.specs.Preservation.{scalars_after, value_after_acts};
ghost use Rattle.kernel_eval.specs.States.{update_first};
ghost use Rattle.kernel_eval.specs.Internal.Cases.{a_fold, a_spot, an_act, call, element_of, binary, both, chained, divides_by_zero, value_of, number_result, greatest_number, operator_place, equality, least_number, negation_of, either, trap_result};
ghost use Rattle.kernel_eval.specs.Meaning.{TruthValue, assigned_value};

/// Division rounds towards zero, and the remainder has the sign of the dividend.
fn division()
    ensures positive { value_of (binary Over (pos 7) (pos 2)) ≡ number_result (pos 3) }
    ensures negative { value_of (binary Over (neg_ℤ (pos 7)) (pos 2))
        ≡ number_result (neg_ℤ (pos 3)) }
    ensures by_negative { value_of (binary Over (pos 7) (neg_ℤ (pos 2)))
        ≡ number_result (neg_ℤ (pos 3)) }
    ensures both_negative { value_of (binary Over (neg_ℤ (pos 7)) (neg_ℤ (pos 2)))
        ≡ number_result (pos 3) }
    ensures rest { value_of (binary Rest (pos 7) (pos 2)) ≡ number_result (pos 1) }
    ensures rest_of_negative { value_of (binary Rest (neg_ℤ (pos 7)) (pos 2))
        ≡ number_result (neg_ℤ (pos 1)) }
    ensures rest_by_negative { value_of (binary Rest (pos 7) (neg_ℤ (pos 2)))
        ≡ number_result (pos 1) }
    ensures by_zero { value_of (binary Over (pos 1) (pos 0))
        ≡ trap_result ZeroDivide operator_place }
    ensures rest_by_zero { value_of (binary Rest (pos 1) (pos 0))
        ≡ trap_result ZeroDivide operator_place }
{}

/// Overflow is at the operator, and the remainder of the least number by -1 is 0.
fn overflow()
    ensures least_by_minus_one { value_of (binary Over least_number (neg_ℤ (pos 1)))
        ≡ trap_result Overflow operator_place }
    ensures rest_by_minus_one { value_of (binary Rest least_number (neg_ℤ (pos 1)))
        ≡ number_result (pos 0) }
    ensures sum { value_of (binary Plus greatest_number (pos 1))
        ≡ trap_result Overflow operator_place }
    ensures difference { value_of (binary Minus least_number (pos 1))
        ≡ trap_result Overflow operator_place }
    ensures product { value_of (binary Times greatest_number (pos 2))
        ≡ trap_result Overflow operator_place }
    ensures least_difference { value_of (binary Minus (neg_ℤ greatest_number) (pos 1))
        ≡ number_result least_number }
    ensures minus_least { value_of (negation_of least_number)
        ≡ trap_result Overflow operator_place }
    ensures minus_greatest { value_of (negation_of greatest_number)
        ≡ number_result (neg_ℤ greatest_number) }
    ensures chain { value_of (chained (pos 1) Minus (pos 2) Minus (pos 3))
        ≡ number_result (neg_ℤ (pos 4)) }
    ensures second_operator { value_of (chained greatest_number Minus (pos 1) Plus (pos 2))
        ≡ trap_result Overflow operator_place }
{}

/// `false && 1 / 0 == 0` and `true || 1 / 0 == 0` stop at the first operand; with the operands swapped the division traps.
fn stopping()
    ensures decided_and { value_of (both (equality (pos 0) (pos 1)) divides_by_zero)
        ≡ Ok (TruthValue false) }
    ensures decided_or { value_of (either (equality (pos 0) (pos 0)) divides_by_zero)
        ≡ Ok (TruthValue true) }
    ensures open_and { value_of (both (equality (pos 0) (pos 0)) divides_by_zero)
        ≡ trap_result ZeroDivide operator_place }
    ensures open_or { value_of (either (equality (pos 0) (pos 1)) divides_by_zero)
        ≡ trap_result ZeroDivide operator_place }
    ensures swapped { value_of (both divides_by_zero (equality (pos 0) (pos 1)))
        ≡ trap_result ZeroDivide operator_place }
{}

/// `+=` wraps around, `-=` adds the negative number modulo 2^64, also of the least number, and `min=` gives the smaller one.
fn assignments()
    ensures wraps { assigned_value (Fold Add) greatest_number greatest_number ≡ neg_ℤ (pos 2) }
    ensures subtracts { assigned_value Less (pos 5) (pos 7) ≡ neg_ℤ (pos 2) }
    ensures subtracts_least { assigned_value Less (pos 0) least_number ≡ least_number }
    ensures subtracts_least_of_less { assigned_value Less (neg_ℤ (pos 1)) least_number
        ≡ greatest_number }
    ensures minimum { assigned_value (Fold Min) (pos 7) (pos 9) ≡ pos 7 }
    ensures replaces { assigned_value Set (pos 7) (pos 9) ≡ pos 9 }
{}

/// At one spot a write replaces the value, a reduction folds it, and a read or an act at another spot leaves it. Reductions fold the
/// scalars that there are.
fn values_after_acts()
    ensures value { value_after_acts (a_spot 6 0) (Some (pos 5))
        (an_act 0 Write (pos 7) ∷ an_act 1 Write (pos 9) ∷ an_act 0 (Reduce Add) (pos 3)
        ∷ an_act 0 Read (pos 10) ∷ []) ≡ Some (pos 10) }
    ensures other_field { value_after_acts (a_spot 7 0) (Some (pos 5))
        (an_act 0 Write (pos 7) ∷ []) ≡ Some (pos 5) }
    ensures no_value { value_after_acts (a_spot 6 0) None (an_act 0 Write (pos 7) ∷ []) ≡ None }
    ensures scalars { scalars_after ((0, pos 5) ∷ (1, pos 2) ∷ [])
        (a_fold 0 Add (pos 3) ∷ a_fold 2 Add (pos 1) ∷ a_fold 1 Min (pos 9) ∷ a_fold 0 Min (pos 4) ∷ [])
        ≡ (0, pos 4) ∷ (1, pos 2) ∷ [] }
{}

/// Of two entries with one key the first is updated.
fn updates()
    ensures { update_first (bytes_eq (codes "x")) (pos 7)
        ((codes "y", pos 1) ∷ (codes "x", pos 2) ∷ (codes "x", pos 3) ∷ [])
        ≡ (codes "y", pos 1) ∷ (codes "x", pos 7) ∷ (codes "x", pos 3) ∷ [] }
{}

/// Elements of expressions by their names, of which the latest counts: an end, an orientation, nil, and no element.
fn element_values()
    ensures latest { element_of (name (codes "e")) ≡ Some (Some (unflipped Edge 0)) }
    ensures head { element_of (call Head (name (codes "e"))) ≡ Some (Some (unflipped Vertex 1)) }
    ensures outside { element_of (call Outside (name (codes "f"))) ≡ Some None }
    ensures towards { element_of (Towards nowhere (name (codes "e"))
        (call Tail (name (codes "e"))))
        ≡ Some (Some (record { kind = Edge; id = 0; flipped = true })) }
    ensures towards_nil { element_of (Towards nowhere (name (codes "e")) (name (codes "n")))
        ≡ Some None }
    ensures unknown { element_of (name (codes "x")) ≡ None }
    ensures number { element_of (call Id (name (codes "e"))) ≡ None }
{}
