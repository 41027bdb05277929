ghost use Rattle.std.specs.Prelude.{◌≡◌, ◌≤◌, ℕ, ℤ, Some, IfOk};
ghost use Rattle.liszt_base.specs.declared.elements.Op.{Op as Operator};
ghost use Rattle.liszt_base.specs.Reductions.{fold};
ghost use Rattle.batch_core.specs.declared.acts.Act.TheVariants.{Read, Load, Put, Fold};
ghost use Rattle.field_words.specs.Events.{IsEvent};
ghost use Rattle.field_words.specs.Maps.{value_in};
ghost use Rattle.field_words.specs.Views.{full_share};
ghost use Rattle.field_words.specs.Holdings.{Owns, OwnsRange, SeesFrozen, after_freeze, after_join, after_load, after_split, after_store, after_thaw, first_holding, handed_holding};

use crate::rule::{
    Freeze, HandedWords, JoinViews, LoadFrozen, LoadOwn, Ownership, Part, Span, SplitView,
    StoreOwn, Thaw,
};
use crate::view::View;
use atomic_table::{Seat, Table};
use liszt_base::{NoMemory, value_of, word_of};
use std::alloc::Global;
use std::marker::{Brand, Model};

/// Words that threads share under the rule of ownership. Contracts see which table it is.
#[derive(Drop)]
pub struct FieldTable {
    table: Table<(), View, u64, Ownership, Global>,
}

impl Model for FieldTable {
    ghost use Rattle.std.specs.Prelude.{◌≡◌, ◌+◌};
    ghost use Rattle.atomic_table.specs.Seated.{TableId, table_id_coded};

    ghost Value = { TableId };

    ghost coded = { table_id_coded };

    ghost view = { λ t. t.table.shared.table_id };

    ghost invariant = { λ t. t.table.shared.table_id.words ≡ t.table.shared.key + 1 };
}

/// A part of the right to a table's words. Contracts see its table, its own and its frozen words with their values, its share, and
/// the number of its steps.
#[derive(Drop)]
pub struct FieldSeat {
    seat: Seat<(), View>,
}

impl Model for FieldSeat {
    ghost use Rattle.std.specs.Prelude.{◌≡◌, []};
    ghost use Rattle.field_words.specs.Holdings.{Holding, holding, IsSeat};

    ghost Value = { Holding };

    ghost view = { λ s. holding s.seat.table_id s.seat.me.0 };

    ghost invariant = { λ s. (s.seat.me.1 ≡ []) × IsSeat s.seat.table_id.words s.seat.me.0 };
}

impl FieldTable {
    /// A table of words 1 to `words`, each 0, and the seat that owns them all and has the full share, 65.
    pub fn make(alloc: Global, words: u32) -> Result<(FieldTable, FieldSeat), NoMemory>
        ensures { IfOk result (λ pair. pair.1 ≡ first_holding pair.0 words) }
    {
        let zeros = vec![in alloc; 0u64; words as usize + 1]?;
        let (table, seat) = Table::of_words(alloc, zeros.as_slice(), &u64::from(words))?;
        Ok((FieldTable { table }, FieldSeat { seat }))
    }

    /// The value of a word that the seat owns.
    pub fn load_own(&self, s: &mut FieldSeat, w: u32) -> i64
        requires table { s.old.table ≡ self.now }
        requires own { Owns s.old w }
        ensures value { value_in s.old.own w ≡ Some result }
        ensures seat { s.new ≡ after_load s.old }
        ensures event { (register : ℤ) → IsEvent (Load w) s.old register s.new result }
    {
        value_of(self.table.shared.load::<LoadOwn>(&mut s.seat, w as usize))
    }

    /// The value of a word that is frozen.
    pub fn load_frozen(&self, s: &mut FieldSeat, w: u32) -> i64
        requires table { s.old.table ≡ self.now }
        requires frozen { SeesFrozen s.old w }
        ensures value { value_in s.old.frozen w ≡ Some result }
        ensures seat { s.new ≡ after_load s.old }
        ensures event { (register : ℤ) → IsEvent (Read w) s.old register s.new register }
    {
        value_of(
            self.table
                .shared
                .load::<LoadFrozen>(&mut s.seat, w as usize),
        )
    }

    /// Sets a word that the seat owns.
    pub fn store_own(&self, s: &mut FieldSeat, w: u32, v: i64)
        requires table { s.old.table ≡ self.now }
        requires own { Owns s.old w }
        ensures seat { s.new ≡ after_store s.old w v }
        ensures event { (register : ℤ) → IsEvent (Put w v) s.old register s.new register }
        ensures fold { (op : Operator) (register u : ℤ) → fold op register u ≡ v
            → IsEvent (Fold w op u) s.old register s.new register }
    {
        self.table
            .shared
            .store::<StoreOwn>(&mut s.seat, w as usize, word_of(v))
    }

    /// A new seat with share 1, the seat's own words that are in the part, and the frozen words. The seat keeps a share.
    pub fn split<P: Part>(&self, s: &mut FieldSeat, part: &P) -> FieldSeat
        requires table { s.old.table ≡ self.now }
        requires share { 2 ≤ s.old.share }
        ensures seat { s.new ≡ after_split (P.words part.now) s.old }
        ensures new { result ≡ handed_holding (P.words part.now) s.old }
    {
        self.split_as::<Brand, P>(s, part)
    }

    // `split`, with the words of the part as a ghost member.
    fn split_as<A: HandedWords, P: Part>(&self, s: &mut FieldSeat, part: &P) -> FieldSeat
        requires words { A.words ≡ P.words part.now }
        requires table { s.old.table ≡ self.now }
        requires share { 2 ≤ s.old.share }
        ensures seat { s.new ≡ after_split (P.words part.now) s.old }
        ensures new { result ≡ handed_holding (P.words part.now) s.old }
    {
        FieldSeat {
            seat: self.table.shared.split_seat::<SplitView<A>>(&mut s.seat),
        }
    }

    /// Adds the own words and the share of another seat at this table.
    pub fn join(&self, s: &mut FieldSeat, other: FieldSeat)
        requires table { (s.old.table ≡ self.now) × (other.table ≡ self.now) }
        ensures { s.new ≡ after_join s.old other }
    {
        let FieldSeat { seat } = other;
        self.table.shared.join_seat::<JoinViews>(&mut s.seat, seat);
    }

    /// Moves `count` own words from `first` on to the frozen ones. The seat has the full share, 65.
    pub fn freeze(&self, s: &mut FieldSeat, first: u32, count: u32)
        requires table { s.old.table ≡ self.now }
        requires share { s.old.share ≡ full_share }
        requires own { OwnsRange s.old first count }
        ensures { s.new ≡ after_freeze first count s.old }
    {
        self.freeze_as::<Brand>(s, first, count);
    }

    // `freeze`, with the range as ghost members.
    fn freeze_as<A: Span>(&self, s: &mut FieldSeat, first: u32, count: u32)
        requires range { (A.first ≡ first) × (A.count ≡ count) }
        requires table { s.old.table ≡ self.now }
        requires full_share { s.old.share ≡ full_share }
        ensures { s.new ≡ after_freeze first count s.old }
    {
        self.table.shared.load::<Freeze<A>>(&mut s.seat, 0);
    }

    /// Moves all frozen words to the own ones. The seat has the full share, 65.
    pub fn thaw(&self, s: &mut FieldSeat)
        requires table { s.old.table ≡ self.now }
        requires share { s.old.share ≡ full_share }
        ensures { s.new ≡ after_thaw s.old }
    {
        self.table.shared.load::<Thaw>(&mut s.seat, 0);
    }
}
