ghost use Rattle.std.specs.Prelude.{◌≡◌, true};
ghost use Rattle.code_eval.specs.Stores.{StoreView, IsLoad, IsStore};

use liszt_base::Spot;

/// A store of the values of fields. Contracts see the spots that may be loaded and stored, their values, the flags of some
/// spots, and a log of the loads and stores where the store keeps one.
pub trait Words {
    ghost store: { Self → StoreView };

    /// The value at a spot. No value and no flag changes.
    fn load(&mut self, spot: Spot) -> i64
        requires { (store self.old).loadable spot ≡ true }
        ensures { IsLoad spot result (store self.old) (store self.new) };

    /// Stores a value at a spot, and sets the spot's flag if it has one. Nothing else changes.
    fn store(&mut self, spot: Spot, value: i64)
        requires { (store self.old).storable spot ≡ true }
        ensures { IsStore spot value (store self.old) (store self.new) };
}
