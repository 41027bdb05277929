ghost use Rattle.std.specs.Prelude.{ℕ, List};

use crate::view::View;
use atomic_table::{Join, Play, Split, TableRule};
use std::marker::{Brand, PhantomData};

/// A list of words, which no running code reads.
pub trait Part {
    ghost words: { Self → List ℕ };
}

/// The rule of ownership. Its key is the number of words after word 0.
pub struct Ownership;

impl TableRule<(), View, u64> for Ownership {
    ghost use Rattle.field_words.specs.Ownership.{IsOwned};
    ghost use Rattle.field_words.specs.Views.{first_view};

    ghost holds = { IsOwned };

    ghost first = { first_view };
}

pub(crate) struct LoadOwn;

impl Play<(), View> for LoadOwn {
    ghost use Rattle.field_words.specs.Internal.Plays.{LoadsOwn};

    ghost then = { LoadsOwn };
}

pub(crate) struct LoadFrozen;

impl Play<(), View> for LoadFrozen {
    ghost use Rattle.field_words.specs.Internal.Plays.{LoadsFrozen};

    ghost then = { LoadsFrozen };
}

pub(crate) struct StoreOwn;

impl Play<(), View> for StoreOwn {
    ghost use Rattle.field_words.specs.Internal.Plays.{StoresOwn};

    ghost then = { StoresOwn };
}

pub(crate) struct Thaw;

impl Play<(), View> for Thaw {
    ghost use Rattle.field_words.specs.Internal.Plays.{Thaws};

    ghost then = { Thaws };
}

// The words that a freeze moves, picked by each call.
pub(crate) trait Span {
    ghost first: { ℕ };

    ghost count: { ℕ };
}

impl Span for Brand {
    ghost first = { 0 };

    ghost count = { 0 };
}

pub(crate) struct Freeze<A> {
    of: PhantomData<A>,
}

impl<A: Span> Play<(), View> for Freeze<A> {
    ghost use Rattle.field_words.specs.Internal.Plays.{Freezes};

    ghost then = { Freezes A.first A.count };
}

// The words that a split hands over, picked by each call.
pub(crate) trait HandedWords {
    ghost words: { List ℕ };
}

impl HandedWords for Brand {
    ghost use Rattle.std.specs.Prelude.{[]};

    ghost words = { [] };
}

pub(crate) struct SplitView<A> {
    of: PhantomData<A>,
}

impl<A: HandedWords> Split<View> for SplitView<A> {
    ghost use Rattle.field_words.specs.Views.{kept_view, handed_view};

    ghost left = { kept_view A.words };

    ghost right = { handed_view A.words };
}

pub(crate) struct JoinViews;

impl Join<View> for JoinViews {
    ghost use Rattle.field_words.specs.Views.{joined_view, spent_view};

    ghost both = { joined_view };

    ghost spent = { spent_view };
}
