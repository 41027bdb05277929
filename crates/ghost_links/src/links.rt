ghost use Rattle.std.specs.Prelude.{◌≡◌, ◌⊎◌, ◌+◌, ◌*◌, ◌%◌, ◌<◌, ◌≤◌, ◌^◌, ℕ, Some, true, [], IfOk, length, slice_get, slice_index};
ghost use Rattle.liszt_base.specs.Limits.{rank_limit};
ghost use Rattle.ghost_links.specs.Holdings.{AreLinked, FitsSizes, HasIdleEnds, HasLink, IsSquare, Posts, Takes, after_join, after_split, after_steps, first_holding, handed_holding, has_idle, link_of, next_number, next_packet, receiver, sender};
ghost use Rattle.ghost_links.specs.Layouts.{first_of, is_link, layout_of, packet_size};
ghost use Rattle.ghost_links.specs.Scripts.{script_over};
ghost use Rattle.ghost_links.specs.Ends.{receiving_end, sending_end};
ghost use Rattle.ghost_links.specs.LinkRule.{FitsLayout};
ghost use Rattle.ghost_links.specs.Views.{after_turn_store, after_data_store, opening_view, after_receiver_load, after_sender_load};
ghost use Rattle.ghost_links.specs.Internal.Stages.{FindsTurn, HasDataPlace, HasPut, IsDataWord, NextFits, after_loads, after_puts, is_busy, is_some, words_put};

use crate::layout::LinkLayout;
use crate::packet::Packet;
use crate::rule::{
    DataLoad, DataPlace, DataStore, HandedRank, JoinViews, LinkRule, ReceiverLoad, ReceiverStore,
    Script, SenderLoad, SenderStore, SetPackets, SetScript, SplitView,
};
use crate::view::View;
use atomic_table::{Seat, Table};
use liszt_base::{NoMemory, PlainLists};
use std::alloc::Global;
use std::marker::{Brand, Model};

/// The link from one rank to another.
#[derive(Clone, Copy, Debug, PartialEq, Eq)]
pub struct LinkId {
    pub from: u32,
    pub to: u32,
}

/// What a post answers: the packet was posted, or the link still has the packet before it, as the turn word that was loaded says.
#[derive(Clone, Copy, Debug, PartialEq, Eq)]
pub enum PostAnswer {
    Posted,
    NotYet { word: u64 },
}

/// What a take answers: a packet was taken, or there is none yet, as the turn word that was loaded says.
#[derive(Clone, Copy, Debug, PartialEq, Eq)]
pub enum TakeAnswer {
    Taken,
    NotYet { word: u64 },
}

/// Links between ranks, in words that threads share under the link rule. Contracts see which table it is, and its layout.
#[derive(Drop)]
pub struct Links {
    table: Table<(), View, LinkLayout, LinkRule, Global>,
    layout: LinkLayout,
}

impl Model for Links {
    ghost use Rattle.std.specs.Prelude.{◌≡◌};
    ghost use Rattle.ghost_links.specs.Holdings.{LinkTable};
    ghost use Rattle.ghost_links.specs.Layouts.{IsLayout, word_count};

    ghost Value = { LinkTable };

    ghost view = { λ l. record { table = l.table.shared.table_id; layout = l.layout } };

    ghost invariant = { λ l. IsLayout l.layout × (l.table.shared.key ≡ l.layout)
        × (l.table.shared.table_id.words ≡ word_count l.layout) };
}

/// The right to some ends of links. Contracts see the table, the script, the ends and the number of its steps.
#[derive(Drop)]
pub struct LinkSeat {
    seat: Seat<(), View>,
}

impl Model for LinkSeat {
    ghost use Rattle.std.specs.Prelude.{◌≡◌, []};
    ghost use Rattle.ghost_links.specs.Holdings.{Holding, IsSeat, holding};

    ghost Value = { Holding };

    ghost view = { λ s. holding s.seat.table_id s.seat.me.0 };

    ghost invariant = { λ s. (s.seat.me.1 ≡ []) × IsSeat s.seat.me.0 };
}

impl Links {
    /// Links between all pairs of different ranks, with these packet sizes, and the seat that has all their ends, each idle before
    /// packet 0 of the script.
    pub fn make<S: Script>(
        alloc: Global,
        ranks: u32,
        sizes: &PlainLists<u32>,
        script: &S,
    ) -> Result<(Links, LinkSeat), NoMemory>
        requires some_rank { 0 < ranks }
        requires few_ranks { ranks ≤ rank_limit }
        requires square { IsSquare ranks sizes.now }
        requires packets { FitsSizes ranks sizes.now (S.packets script.now) }
        requires few_words { first_of ranks sizes.now (ranks * ranks) < 2 ^ 32 }
        ensures layout { IfOk result (λ pair. pair.0.layout ≡ layout_of ranks sizes.now) }
        ensures seat { IfOk result (λ pair. pair.1
            ≡ first_holding pair.0 (S.packets script.now)) }
    {
        let layout = LinkLayout::new(alloc, ranks, sizes)?;
        let zeros = vec![in alloc; 0u64; layout.words()]?;
        let (table, seat) = Table::of_words(alloc, zeros.as_slice(), &layout)?;
        let links = Links { table, layout };
        let seat = links.set_script::<S>(seat, script);
        Ok((links, seat))
    }

    // The seat of a new table, whose script is that of `script`.
    fn set_script<S: Script>(&self, seat: Seat<(), View>, script: &S) -> LinkSeat
        requires table { seat.table_id ≡ self.now.table }
        requires opening { seat.me ≡ (opening_view, []) }
        requires fits { FitsLayout self.now.layout
            (script_over self.now.layout.ranks (S.packets script.now)) }
        ensures { result ≡ first_holding self.now (S.packets script.now) }
    {
        self.set_script_as::<Brand, S>(seat, script)
    }

    // `set_script`, with the layout and the packets as ghost members.
    fn set_script_as<A: SetPackets, S: Script>(&self, seat: Seat<(), View>, script: &S) -> LinkSeat
        requires layout { A.layout ≡ self.now.layout }
        requires packets { A.packets ≡ S.packets script.now }
        requires table { seat.table_id ≡ self.now.table }
        requires opening { seat.me ≡ (opening_view, []) }
        requires fits { FitsLayout self.now.layout
            (script_over self.now.layout.ranks (S.packets script.now)) }
        ensures { result ≡ first_holding self.now (S.packets script.now) }
    {
        let mut seat = seat;
        self.table.shared.load::<SetScript<A>>(&mut seat, 0);
        LinkSeat { seat }
    }

    // The turn word of a link.
    fn number(&self, link: LinkId) -> usize
        requires { HasLink self.now link.from link.to }
        ensures number { result ≡ link_of self.now link.from link.to }
        ensures link { is_link self.now.layout.ranks result ≡ true }
    {
        link.from as usize * self.layout.ranks() + link.to as usize
    }

    /// Puts the script's next packet into its link, or answers that the packet before it is not taken yet.
    pub fn post(&self, s: &mut LinkSeat, link: LinkId, p: &Packet) -> PostAnswer
        requires links { AreLinked self.now s.old }
        requires link { HasLink self.now link.from link.to }
        requires end { has_idle s.old (sender self.now link.from link.to) ≡ true }
        requires packet { next_packet s.old (link_of self.now link.from link.to)
            (sender self.now link.from link.to) ≡ Some p.now.words }
        ensures { Posts (sender self.now link.from link.to) p.now.words result s.old s.new }
    {
        let link = self.number(link);
        let word = self.load_to_post(s, link);
        if word % 2 == 1 {
            return PostAnswer::NotYet { word };
        }
        self.store_packet(s, link, p);
        self.store_posted(s, link, word + 1);
        PostAnswer::Posted
    }

    // The turn word, before a post. Its end becomes busy where the word is even.
    fn load_to_post(&self, s: &mut LinkSeat, link: usize) -> u64
        requires links { AreLinked self.now s.old }
        requires link { is_link self.now.layout.ranks link ≡ true }
        requires end { has_idle s.old (sending_end link) ≡ true }
        requires packet { is_some (next_packet s.old link (sending_end link)) ≡ true }
        ensures seat { s.new ≡ after_steps (sending_end link) (after_sender_load result) 1 s.old }
        ensures word { (result ≡ 2 * next_number s.old (sending_end link))
            ⊎ (result + 1 ≡ 2 * next_number s.old (sending_end link)) }
    {
        self.table.shared.load::<SenderLoad>(&mut s.seat, link)
    }

    // Stores the data words of a packet, by a busy sending end that has put none.
    fn store_packet(&self, s: &mut LinkSeat, link: usize, p: &Packet)
        requires links { AreLinked self.now s.old }
        requires link { is_link self.now.layout.ranks link ≡ true }
        requires end { words_put s.old (sending_end link) ≡ Some 0 }
        requires packet { next_packet s.old link (sending_end link) ≡ Some p.now.words }
        ensures { s.new ≡ after_puts (sending_end link) (length p.now.words + 1) s.old }
    {
        self.store_data(s, link, 0, p.used() as u64);
        for i in 0..p.used() {
            self.store_data(s, link, i + 1, p.get(i));
        }
    }

    // Stores a data word of the next packet, by a busy sending end that has put those before it.
    fn store_data(&self, s: &mut LinkSeat, link: usize, place: usize, word: u64)
        requires links { AreLinked self.now s.old }
        requires link { is_link self.now.layout.ranks link ≡ true }
        requires end { words_put s.old (sending_end link) ≡ Some place }
        requires word { IsDataWord s.old link (sending_end link) place word }
        ensures { s.new ≡ after_steps (sending_end link) after_data_store 1 s.old }
    {
        self.store_data_as::<Brand>(s, link, place, word);
    }

    // `store_data`, with the link as a ghost member.
    fn store_data_as<A: DataPlace>(&self, s: &mut LinkSeat, link: usize, place: usize, word: u64)
        requires place { A.link ≡ link }
        requires links { AreLinked self.now s.old }
        requires link { is_link self.now.layout.ranks link ≡ true }
        requires end { words_put s.old (sending_end link) ≡ Some place }
        requires word { IsDataWord s.old link (sending_end link) place word }
        ensures { s.new ≡ after_steps (sending_end link) after_data_store 1 s.old }
    {
        let seat = &mut s.seat;
        let index = self.layout.first(link) + place;
        self.table.shared.store::<DataStore<A>>(seat, index, word);
    }

    // Stores the turn word after the data words of the next packet.
    fn store_posted(&self, s: &mut LinkSeat, link: usize, turn: u64)
        requires links { AreLinked self.now s.old }
        requires link { is_link self.now.layout.ranks link ≡ true }
        requires end { HasPut s.old link (sending_end link) }
        requires turn { turn ≡ 2 * next_number s.old (sending_end link) + 1 }
        ensures { s.new ≡ after_steps (sending_end link) after_turn_store 1 s.old }
    {
        self.table
            .shared
            .store::<SenderStore>(&mut s.seat, link, turn);
    }

    /// Takes the script's next packet out of its link, or answers that it is not there yet.
    pub fn take(&self, s: &mut LinkSeat, link: LinkId, into: &mut Packet) -> TakeAnswer
        requires links { AreLinked self.now s.old }
        requires link { HasLink self.now link.from link.to }
        requires end { has_idle s.old (receiver self.now link.from link.to) ≡ true }
        requires size { packet_size self.now.layout (link_of self.now link.from link.to)
            ≤ into.old.size }
        ensures { Takes (link_of self.now link.from link.to) (receiver self.now link.from link.to)
            result s.old s.new into.old into.new }
    {
        let link = self.number(link);
        let word = self.load_to_take(s, link);
        if word % 2 == 0 {
            return TakeAnswer::NotYet { word };
        }
        self.load_packet(s, link, into);
        self.store_taken(s, link, word + 1);
        TakeAnswer::Taken
    }

    // The turn word, before a take. Its end becomes busy where the word is odd.
    fn load_to_take(&self, s: &mut LinkSeat, link: usize) -> u64
        requires links { AreLinked self.now s.old }
        requires link { is_link self.now.layout.ranks link ≡ true }
        requires end { has_idle s.old (receiving_end link) ≡ true }
        ensures seat { s.new ≡ after_steps (receiving_end link) (after_receiver_load result) 1 s.old }
        ensures word { FindsTurn s.old link (receiving_end link) result }
        ensures bound { result + 1 < 2 ^ 64 }
    {
        self.table.shared.load::<ReceiverLoad>(&mut s.seat, link)
    }

    // Loads the data words of the next packet, by a busy receiving end.
    fn load_packet(&self, s: &mut LinkSeat, link: usize, into: &mut Packet)
        requires links { AreLinked self.now s.old }
        requires link { is_link self.now.layout.ranks link ≡ true }
        requires end { is_busy s.old (receiving_end link) ≡ true }
        requires packet { is_some (next_packet s.old link (receiving_end link)) ≡ true }
        requires size { packet_size self.now.layout link ≤ into.old.size }
        ensures packet { next_packet s.old link (receiving_end link) ≡ Some into.new.words }
        ensures size { into.new.size ≡ into.old.size }
        ensures seat { s.new ≡ after_loads (length into.new.words + 1) s.old }
    {
        into.set_used(self.load_data(s, link, 0) as usize);
        for i in 0..into.used() {
            into.set(i, self.load_data(s, link, i + 1));
        }
    }

    // Loads a data word of the next packet, by a busy receiving end.
    fn load_data(&self, s: &mut LinkSeat, link: usize, place: usize) -> u64
        requires links { AreLinked self.now s.old }
        requires link { is_link self.now.layout.ranks link ≡ true }
        requires end { is_busy s.old (receiving_end link) ≡ true }
        requires place { HasDataPlace s.old link (receiving_end link) place }
        ensures word { IsDataWord s.old link (receiving_end link) place result }
        ensures fits { NextFits self.now.layout s.old link (receiving_end link) }
        ensures seat { s.new ≡ after_loads 1 s.old }
    {
        self.load_data_as::<Brand>(s, link, place)
    }

    // `load_data`, with the link and the place as ghost members.
    fn load_data_as<A: DataPlace>(&self, s: &mut LinkSeat, link: usize, place: usize) -> u64
        requires picked { (A.link ≡ link) × (A.place ≡ place) }
        requires links { AreLinked self.now s.old }
        requires link { is_link self.now.layout.ranks link ≡ true }
        requires end { is_busy s.old (receiving_end link) ≡ true }
        requires place { HasDataPlace s.old link (receiving_end link) place }
        ensures word { IsDataWord s.old link (receiving_end link) place result }
        ensures fits { NextFits self.now.layout s.old link (receiving_end link) }
        ensures seat { s.new ≡ after_loads 1 s.old }
    {
        let seat = &mut s.seat;
        let index = self.layout.first(link) + place;
        self.table.shared.load::<DataLoad<A>>(seat, index)
    }

    // Stores the turn word after the data words were loaded.
    fn store_taken(&self, s: &mut LinkSeat, link: usize, turn: u64)
        requires links { AreLinked self.now s.old }
        requires link { is_link self.now.layout.ranks link ≡ true }
        requires end { is_busy s.old (receiving_end link) ≡ true }
        requires turn { turn ≡ 2 * next_number s.old (receiving_end link) + 2 }
        ensures { s.new ≡ after_steps (receiving_end link) after_turn_store 1 s.old }
    {
        self.table
            .shared
            .store::<ReceiverStore>(&mut s.seat, link, turn);
    }

    /// A new seat with the ends of one rank, which are idle.
    pub fn split(&self, s: &mut LinkSeat, rank: u32) -> LinkSeat
        requires links { AreLinked self.now s.old }
        requires ends { HasIdleEnds self.now s.old rank }
        ensures seat { s.new ≡ after_split rank s.old }
        ensures new { result ≡ handed_holding rank s.old }
    {
        self.split_as::<Brand>(s, rank)
    }

    // `split`, with the rank as a ghost member.
    fn split_as<A: HandedRank>(&self, s: &mut LinkSeat, rank: u32) -> LinkSeat
        requires picked { A.rank ≡ rank }
        requires links { AreLinked self.now s.old }
        ensures seat { s.new ≡ after_split rank s.old }
        ensures new { result ≡ handed_holding rank s.old }
    {
        LinkSeat {
            seat: self.table.shared.split_seat::<SplitView<A>>(&mut s.seat),
        }
    }

    /// Adds the ends of another seat of these links.
    pub fn join(&self, s: &mut LinkSeat, other: LinkSeat)
        requires links { AreLinked self.now s.old × AreLinked self.now other }
        ensures { s.new ≡ after_join s.old other }
    {
        let LinkSeat { seat } = other;
        self.table.shared.join_seat::<JoinViews>(&mut s.seat, seat);
    }
}
