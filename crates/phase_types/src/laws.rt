//! Laws of the definitions, each the contract of a function that does nothing.

ghost use Rattle.std.specs.Prelude.{◌≡◌, ◌≤◌, ℕ, Some, None, List, ◌∷◌, ◌++◌, length, slice_get, Ok, Err};
ghost use Rattle.liszt_base.specs.declared.answers.ProgramFault.{ProgramFault};
ghost use Rattle.liszt_tree.specs.Tree.{Expression, Main, MainItem, main_nodes};
ghost use Rattle.phase_types.specs.Checked.{CheckedProgram, checked_program, item_count, HasPartsOf, IsWithin};
ghost use Rattle.phase_types.specs.CheckedParts.{HasModesInRange, HasAllowedModes, HasLowerParents};
ghost use Rattle.phase_types.specs.Environments.{Environment, Binding, binding_of, Site, start, Part, FieldPart, ScalarPart, ComprehensionPart, ScopePart, Comprehension, IsPrefix, DenotesPart, BindsParts, block_start, after_item, after_main, fields_in, scalars_in, comprehensions_in, scopes_in};
ghost use Rattle.phase_types.specs.declared.info.FieldInfo.{FieldInfo as Info};
ghost use Rattle.phase_types.specs.Layouts.{AllBodiesFit};
ghost use Rattle.phase_types.specs.Typed.{IsTyped, ItemFits, MainFits};
ghost use Rattle.phase_types.specs.Types.{HasType, ValueType, type_of};
ghost use Rattle.phase_types.specs.Walk.{check_fault};

/// An expression has a type if and only if `type_of` gives that type. So it has at most one.
pub fn types_are_computed()
    ensures complete { (environment : Environment) (e : Expression) (type : ValueType)
        → HasType environment e type → type_of environment e ≡ Some type }
    ensures sound { (environment : Environment) (e : Expression) (type : ValueType)
        → type_of environment e ≡ Some type → HasType environment e type }
{}

/// A program is typed if and only if its walk has no fault.
pub fn typed_programs_have_no_fault()
    ensures no_fault { (program : Main) → IsTyped program → check_fault program ≡ None }
    ensures typed { (program : Main) → check_fault program ≡ None → IsTyped program }
{}

/// Parts are numbered in the order of the text: the parts at a site are the first ones after each later item, and the next part of
/// a sort is at the index that is the number of earlier ones.
pub fn parts_are_numbered_in_order()
    ensures after_item { (site : Site) (i : MainItem)
        → IsPrefix site.parts (after_item site i).parts }
    ensures after_items { (site : Site) (program : Main)
        → IsPrefix site.parts (after_main site program).parts }
    ensures fields { (before rest : List Part) (info : Info)
        → slice_get (fields_in (before ++ FieldPart info ∷ rest)) (length (fields_in before))
        ≡ Some info }
    ensures scalars { (before rest : List Part) (name : List ℕ)
        → slice_get (scalars_in (before ++ ScalarPart name ∷ rest)) (length (scalars_in before))
        ≡ Some name }
    ensures comprehensions { (before rest : List Part) (c : Comprehension)
        → slice_get (comprehensions_in (before ++ ComprehensionPart c ∷ rest))
        (length (comprehensions_in before)) ≡ Some c }
    ensures scopes { (before rest : List Part) (parent : ℕ)
        → slice_get (scopes_in (before ++ ScopePart parent ∷ rest)) (length (scopes_in before))
        ≡ Some parent }
{}

/// Names denote parts by their numbers: at each site the binding of a visible name has the number of the built-in field, or of the
/// declared field or scalar of that name, and a typed item leaves it unchanged. Later parts change no number.
pub fn bindings_denote_parts()
    ensures start { BindsParts start }
    ensures after_item { (site : Site) (i : MainItem) → BindsParts site
        → BindsParts (after_item site i) }
    ensures after_items { (site : Site) (program : Main) → BindsParts site
        → BindsParts (after_main site program) }
    ensures block { (site : Site) → BindsParts site → BindsParts (block_start site) }
    ensures later_parts { (parts rest : List Part) (name : List ℕ) (binding : Binding)
        → DenotesPart parts name binding → DenotesPart (parts ++ rest) name binding }
    ensures unchanged_by_item { (site : Site) (i : MainItem) (name : List ℕ) (binding : Binding)
        → ItemFits site i → binding_of site.environment name ≡ Some binding
        → binding_of (after_item site i).environment name ≡ Some binding }
    ensures unchanged_by_items { (site : Site) (program : Main) (name : List ℕ) (binding : Binding)
        → MainFits site program → binding_of site.environment name ≡ Some binding
        → binding_of (after_main site program).environment name ≡ Some binding }
{}

/// A program has a checked program if and only if it is typed, and else its fault is the first one of its walk.
pub fn checked_programs_are_typed()
    ensures fault { (program : Main) (fault : ProgramFault) → check_fault program ≡ Some fault
        → checked_program program ≡ Err fault }
    ensures only_fault { (program : Main) (fault : ProgramFault)
        → checked_program program ≡ Err fault → check_fault program ≡ Some fault }
    ensures typed { (program : Main) (checked : CheckedProgram)
        → checked_program program ≡ Ok checked → IsTyped program }
    ensures checked { (program : Main) → IsTyped program
        → (checked : CheckedProgram) × (checked_program program ≡ Ok checked) }
{}

/// A checked program has the parts of its tree, by the same numbers, with the modes of each comprehension; it has at most as many
/// fields, scalars and comprehensions as the tree has items, and a tree has at most as many items as nodes.
pub fn checked_programs_have_their_parts()
    ensures parts { (program : Main) (checked : CheckedProgram)
        → checked_program program ≡ Ok checked → HasPartsOf program checked }
    ensures within { (program : Main) (checked : CheckedProgram)
        → checked_program program ≡ Ok checked → IsWithin (item_count program) checked }
    ensures items { (program : Main) → item_count program ≤ main_nodes program }
{}

/// Each comprehension of a checked program accesses fields and scalars that the program has: it writes no scalar, and only reads a
/// built-in field. Each scope but the outermost is enclosed by one of a lower number.
pub fn checked_parts_are_in_range()
    ensures modes { (program : Main) (checked : CheckedProgram)
        → checked_program program ≡ Ok checked → HasModesInRange checked }
    ensures allowed { (program : Main) (checked : CheckedProgram)
        → checked_program program ≡ Ok checked → HasAllowedModes checked }
    ensures scopes { (program : Main) (checked : CheckedProgram)
        → checked_program program ≡ Ok checked → HasLowerParents checked.scopes }
{}

/// The body of each comprehension of a checked program fits its frame: each slot is one of the frame, slot 0 is of the kind of the
/// comprehension, each element is of the kind that is wanted there, and each field and scalar is one of the program.
pub fn checked_bodies_fit()
    ensures bodies { (program : Main) (checked : CheckedProgram)
        → checked_program program ≡ Ok checked → AllBodiesFit checked }
{}
