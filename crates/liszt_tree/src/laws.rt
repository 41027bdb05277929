//! Laws of the definitions, each the contract of a function with an empty body.

ghost use Rattle.std.specs.Prelude.{◌≡◌};
ghost use Rattle.liszt_tree.specs.Canonical.{canonical};
ghost use Rattle.liszt_tree.specs.Tree.{Main, Same, main_without_places};

/// The canonical text does not depend on places: it is that of the tree without places, and trees that are the same up to places
/// have the same text.
pub fn places_are_not_shown()
    ensures without_places { (tree : Main)
        → canonical (main_without_places tree) ≡ canonical tree }
    ensures same { (tree other : Main) → Same tree other → canonical tree ≡ canonical other }
{}
