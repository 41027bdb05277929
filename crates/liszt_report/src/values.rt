ghost use Rattle.std.specs.Prelude.{◌≡◌, ℕ, Some, IsSome};
ghost use Rattle.liszt_report.specs.FieldValues.{FieldValues};

/// The values of fields at ids. Contracts see them as a partial function, which no call changes.
pub trait Values {
    ghost values: { Self → FieldValues };

    /// The value of a field, by its number, at an id.
    fn value(&mut self, field: u32, id: u32) -> i64
        requires { IsSome (values self.old field id) }
        ensures value { values self.old field id ≡ Some result }
        ensures unchanged { (other place : ℕ)
            → values self.new other place ≡ values self.old other place };
}
