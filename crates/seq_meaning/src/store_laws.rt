//! Laws of stores of declared fields, each the contract of a function that does nothing.

ghost use Rattle.std.specs.Prelude.{◌≡◌, ◌≢◌, ◌+◌, ◌==◌, ℕ, ℤ, List, Some, None, ◌∷◌, ◌++◌, true, false, is_some, replicate, slice_get};
ghost use Rattle.liszt_base.specs.MeshLists.{MeshLists};
ghost use Rattle.liszt_base.specs.declared.accesses.Spot.{Spot as SpotOf};
ghost use Rattle.mesh_topology.specs.Elements.{count};
ghost use Rattle.phase_types.specs.Environments.{first_declared, lookup};
ghost use Rattle.phase_types.specs.declared.info.FieldInfo.{FieldInfo as FieldOf};
ghost use Rattle.code_eval.specs.Acts.{Act, is_spot};
ghost use Rattle.code_eval.specs.Stores.{HasActed, HasSameSpots};
ghost use Rattle.kernel_eval.specs.Preservation.{value_after_acts};
ghost use Rattle.kernel_eval.specs.States.{Fields, value_in};
ghost use Rattle.seq_meaning.specs.FieldStores.{HasSpotsOf, HoldsFields, IsLaidOut, StoreWords, declared_value, stored_value, view_of, word_index};
ghost use Rattle.seq_meaning.specs.declared.field_store.FieldRange.{FieldRange as RangeOf};

/// Two different spots have different words.
pub fn spots_have_their_own_words()
    ensures { (ranges : List RangeOf) (words : ℕ) (a b : SpotOf) (i j : ℕ)
        → IsLaidOut ranges words
        → is_spot a b ≡ false
        → word_index ranges a ≡ Some i
        → word_index ranges b ≡ Some j
        → i ≢ j }
{}

/// A store still has the spots of declared fields after each step that keeps the spots that may be loaded, and after each declaration.
pub fn stores_keep_their_spots()
    ensures steps { (fields : List FieldOf) (mesh : MeshLists) (before after : StoreWords)
        → HasSpotsOf fields mesh before
        → HasSameSpots (view_of before) (view_of after)
        → HasSpotsOf fields mesh after }
    ensures declarations { (fields : List FieldOf) (mesh : MeshLists) (before after : StoreWords)
        (field : ℕ) (value : ℤ)
        → HasSpotsOf fields mesh before
        → ((spot : SpotOf) → stored_value after spot
        ≡ declared_value field value spot (stored_value before spot))
        → HasSpotsOf fields mesh after }
{}

/// A store that holds the fields of a state holds them with a further field after its declaration, holds those after acts where it has
/// done the acts, and holds the remaining ones at the end of a scope, whose fields have other numbers.
pub fn stores_hold_fields()
    ensures declarations { (fields : List FieldOf) (mesh : MeshLists) (before after : StoreWords)
        (live : Fields) (index : ℕ) (info : FieldOf) (value : ℤ)
        → HasSpotsOf fields mesh before
        → HoldsFields live before
        → slice_get fields index ≡ Some info
        → ((spot : SpotOf) → stored_value after spot
        ≡ declared_value (first_declared + index) value spot (stored_value before spot))
        → HoldsFields ((first_declared + index, replicate (count mesh info.kind) value) ∷ live)
        after }
    ensures acts { (before after : StoreWords) (live later : Fields) (acts : List Act)
        → HoldsFields live before
        → HasActed acts (view_of before) (view_of after)
        → ((spot : SpotOf) → value_in later spot
        ≡ value_after_acts spot (value_in live spot) acts)
        → HoldsFields later after }
    ensures scopes { (store : StoreWords) (closed rest : Fields)
        → HoldsFields (closed ++ rest) store
        → ((number : ℕ) → is_some (lookup (λ other. other == number) rest) ≡ true
        → lookup (λ other. other == number) closed ≡ None)
        → HoldsFields rest store }
{}
