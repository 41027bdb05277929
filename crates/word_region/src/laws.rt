//! Laws of regions, each the contract of a function that does nothing.

ghost use Rattle.std.specs.Prelude.{◌≡◌, ◌≢◌, ◌⊎◌, ◌<◌, ◌≤◌, ◌+◌, ℕ, List, ◌∷◌, Ok, Some, None, length};
ghost use Rattle.word_region.specs.Regions.{AreScopes, EndsBefore, IsLive, IsRegion, MayOpen, RegionState, chain, closed, enclosing, first_declared, first_word_of, index_of, opened, peak_of, planned, scope_at, size_at, words_upto};

/// The words of two different live fields do not overlap. Those of each are in 1 to the peak, so word 0 belongs to no field.
pub fn live_fields_have_their_own_words()
    ensures apart { (region : RegionState) (field other : ℕ)
        → IsRegion region
        → field ≢ other
        → IsLive region field
        → IsLive region other
        → EndsBefore region field other ⊎ EndsBefore region other field }
    ensures after_zero { (region : RegionState) (field : ℕ)
        → 1 ≤ first_word_of region.scopes region.sizes field }
    ensures within { (region : RegionState) (field : ℕ)
        → IsRegion region
        → IsLive region field
        → first_word_of region.scopes region.sizes field + size_at region.sizes (index_of field)
        ≤ peak_of region.scopes region.sizes + 1 }
{}

/// The peak is the greatest number of words of a scope and its ancestors, and at most the limit that a region is planned with.
pub fn the_peak_is_greatest()
    ensures bound { (scopes : List ℕ) (sizes : List (ℕ × ℕ)) (scope : ℕ) → scope < length scopes
        → words_upto scopes sizes scope ≤ peak_of scopes sizes }
    ensures least { (scopes : List ℕ) (sizes : List (ℕ × ℕ)) (bound : ℕ)
        → ((scope : ℕ) → scope < length scopes → words_upto scopes sizes scope ≤ bound)
        → peak_of scopes sizes ≤ bound }
    ensures limit { (scopes : List ℕ) (sizes : List (ℕ × ℕ)) (limit : ℕ) (region : RegionState)
        → planned scopes sizes limit ≡ Ok region
        → peak_of region.scopes region.sizes ≤ limit }
{}

/// Opening and closing scopes moves no field.
pub fn fields_keep_their_words()
    ensures opened { (region : RegionState) (scope field : ℕ)
        → first_word_of (opened region scope).scopes (opened region scope).sizes field
        ≡ first_word_of region.scopes region.sizes field }
    ensures closed { (region : RegionState) (scope field : ℕ)
        → first_word_of (closed region scope).scopes (closed region scope).sizes field
        ≡ first_word_of region.scopes region.sizes field }
{}

/// A scope may be opened once its ancestors are, from the outermost inwards, and nothing else is needed. It is then the first of its chain,
/// whose rest was open: live fields stay live, and its own are live too. Its closing undoes its opening, and ends its own fields alone.
pub fn scopes_open_inwards()
    ensures outermost { (region : RegionState) → IsRegion region → region.innermost ≡ None
        → MayOpen region 0 }
    ensures inner { (region : RegionState) (scope parent : ℕ)
        → enclosing region.scopes scope ≡ Some parent
        → region.innermost ≡ Some parent
        → MayOpen region scope }
    ensures chain { (scopes : List ℕ) (scope : ℕ) → AreScopes scopes → scope < length scopes
        → chain scopes (Some scope) ≡ scope ∷ chain scopes (enclosing scopes scope) }
    ensures live { (region : RegionState) (scope field : ℕ)
        → IsRegion region
        → MayOpen region scope
        → IsLive region field
        → IsLive (opened region scope) field }
    ensures own { (region : RegionState) (field : ℕ)
        → IsRegion region
        → first_declared ≤ field
        → index_of field < length region.sizes
        → region.innermost ≡ Some (scope_at region.sizes (index_of field))
        → IsLive region field }
    ensures outer { (region : RegionState) (scope field : ℕ)
        → IsRegion region
        → region.innermost ≡ Some scope
        → scope_at region.sizes (index_of field) ≢ scope
        → IsLive region field
        → IsLive (closed region scope) field }
    ensures undone { (region : RegionState) (scope : ℕ) → MayOpen region scope
        → closed (opened region scope) scope ≡ region }
{}
