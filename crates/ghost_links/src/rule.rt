ghost use Rattle.std.specs.Prelude.{ℕ, List};
ghost use Rattle.ghost_links.specs.Layouts.{Layout};

use crate::layout::LinkLayout;
use crate::view::View;
use atomic_table::{Join, Play, Split, TableRule};
use std::marker::{Brand, PhantomData};

/// For each pair of ranks the packets of the link from the first to the second, each a list of words. No running code reads it.
pub trait Script {
    ghost packets: { Self → ℕ → ℕ → List (List ℕ) };
}

/// The link rule. Its key is how the words are laid out.
pub struct LinkRule;

impl TableRule<(), View, LinkLayout> for LinkRule {
    ghost use Rattle.ghost_links.specs.LinkRule.{FollowsRule};
    ghost use Rattle.ghost_links.specs.Views.{opening_view};

    ghost holds = { FollowsRule };

    ghost first = { λ _. opening_view };
}

// The script of a new table, picked by `make`.
pub(crate) trait SetPackets {
    ghost layout: { Layout };

    ghost packets: { ℕ → ℕ → List (List ℕ) };
}

impl SetPackets for Brand {
    ghost use Rattle.std.specs.Prelude.{[]};
    ghost use Rattle.ghost_links.specs.Views.{no_layout};

    ghost layout = { no_layout };

    ghost packets = { λ a b. [] };
}

pub(crate) struct SetScript<A> {
    of: PhantomData<A>,
}

impl<A: SetPackets> Play<(), View> for SetScript<A> {
    ghost use Rattle.ghost_links.specs.Steps.{SetsScript};

    ghost then = { SetsScript A.layout A.packets };
}

pub(crate) struct SenderLoad;

impl Play<(), View> for SenderLoad {
    ghost use Rattle.ghost_links.specs.Steps.{SenderLoads};

    ghost then = { SenderLoads };
}

pub(crate) struct ReceiverLoad;

impl Play<(), View> for ReceiverLoad {
    ghost use Rattle.ghost_links.specs.Steps.{ReceiverLoads};

    ghost then = { ReceiverLoads };
}

// The link and the place of a data word, picked by each call.
pub(crate) trait DataPlace {
    ghost link: { ℕ };

    ghost place: { ℕ };
}

impl DataPlace for Brand {
    ghost link = { 0 };

    ghost place = { 0 };
}

pub(crate) struct DataStore<A> {
    of: PhantomData<A>,
}

impl<A: DataPlace> Play<(), View> for DataStore<A> {
    ghost use Rattle.ghost_links.specs.Steps.{StoresData};

    ghost then = { StoresData A.link };
}

pub(crate) struct DataLoad<A> {
    of: PhantomData<A>,
}

impl<A: DataPlace> Play<(), View> for DataLoad<A> {
    ghost use Rattle.ghost_links.specs.Steps.{LoadsData};

    ghost then = { LoadsData A.link A.place };
}

pub(crate) struct SenderStore;

impl Play<(), View> for SenderStore {
    ghost use Rattle.ghost_links.specs.Steps.{SenderStores};

    ghost then = { SenderStores };
}

pub(crate) struct ReceiverStore;

impl Play<(), View> for ReceiverStore {
    ghost use Rattle.ghost_links.specs.Steps.{ReceiverStores};

    ghost then = { ReceiverStores };
}

// The rank whose ends a split hands over, picked by each call.
pub(crate) trait HandedRank {
    ghost rank: { ℕ };
}

impl HandedRank for Brand {
    ghost rank = { 0 };
}

pub(crate) struct SplitView<A> {
    of: PhantomData<A>,
}

impl<A: HandedRank> Split<View> for SplitView<A> {
    ghost use Rattle.ghost_links.specs.Views.{kept_view, handed_view};

    ghost left = { kept_view A.rank };

    ghost right = { handed_view A.rank };
}

pub(crate) struct JoinViews;

impl Join<View> for JoinViews {
    ghost use Rattle.ghost_links.specs.Views.{joined_view, spent_view};

    ghost both = { joined_view };

    ghost spent = { spent_view };
}
