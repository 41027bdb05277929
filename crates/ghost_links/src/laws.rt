//! What the definitions of links say, each law the contract of a function that does nothing.

ghost use Rattle.std.specs.Prelude.{◌≡◌, ◌≢◌, ◌↔◌, ◌+◌, ◌*◌, ◌%◌, ◌<◌, ◌≤◌, ◌^◌, ℕ, true, false, cond, eqb, List, [], ◌∷◌, length, slice_get, slice_index, slice_index_or};
ghost use Rattle.std.specs.declared.option.Option.TheVariants.{None, Some};
ghost use mathlib.Core.Option.{some};
ghost use lib.ListN.{get_elem?};
ghost use Rattle.ghost_links.specs.declared.links.PostAnswer.{PostAnswer};
ghost use Rattle.ghost_links.specs.declared.links.PostAnswer.TheVariants.{NotYet as PostNotYet};
ghost use Rattle.ghost_links.specs.declared.links.TakeAnswer.{TakeAnswer};
ghost use Rattle.ghost_links.specs.declared.links.TakeAnswer.TheVariants.{NotYet as TakeNotYet};
ghost use Rattle.ghost_links.specs.declared.view.End.{End};
ghost use Rattle.ghost_links.specs.declared.view.View.{View};
ghost use Rattle.ghost_links.specs.Layouts.{Layout, first_word, given_room, given_size, is_link, layout_of, packet_size, turn_count, turn_word};
ghost use Rattle.ghost_links.specs.Scripts.{packet_of, script_over};
ghost use Rattle.ghost_links.specs.Ends.{end_in, idle_end, is_end, occurrences, receiving_end, sending_end};
ghost use Rattle.ghost_links.specs.LinkRule.{FollowsRule, HavePacket, IsInOneView, IsLinked, PutsPacket, TableState};
ghost use Rattle.ghost_links.specs.Holdings.{ChangedOneEnd, HasLink, Holding, IsSeat, LinkTable, Posts, Takes, after_join, after_split, first_holding, handed_holding, has_idle, last_word, posted_count, receiver, sender, taken_count};
ghost use Rattle.ghost_links.specs.Packets.{PacketWords};
ghost use Rattle.ghost_links.specs.Steps.{HasLoadedWords, RunSeat, Runs};

/// All views but those of seats that were joined away have one script; a view that was joined away has no end. The packets of each link
/// are fewer than 2^62, and each fits its link. Each end of each link is in one view. At turn word 2n both ends have next number
/// n, and the receiving end is idle. At 2n + 1 the sending end has n + 1 and is idle, the receiving end has n, the script has a packet n, and
/// the link's data words begin with its area. Where a sending end is busy, the script has its next packet, and the words that it
/// has put are the first ones of the packet's area. A turn word that belongs to no link is 0. The rule holds wherever there is a seat.
pub fn link_rule()
    ensures one_script { (layout : Layout) (s : TableState) → IsLinked layout s → (i j : ℕ)
        (v w : View) → get_elem? s.views i ≡ some v → get_elem? s.views j ≡ some w
        → v.joined ≡ false → w.joined ≡ false → v.script ≡ w.script }
    ensures joined_away { (layout : Layout) (s : TableState) → IsLinked layout s → (j : ℕ)
        (v : View) → get_elem? s.views j ≡ some v → v.joined ≡ true → v.ends ≡ [] }
    ensures few_packets { (layout : Layout) (s : TableState) → IsLinked layout s → (j link : ℕ)
        (v : View) → get_elem? s.views j ≡ some v → v.joined ≡ false
        → is_link layout.ranks link ≡ true → length (slice_index_or v.script link []) < 2 ^ 62 }
    ensures packets_fit { (layout : Layout) (s : TableState) → IsLinked layout s
        → (j link n : ℕ) (v : View) (packet : List ℕ) → get_elem? s.views j ≡ some v
        → v.joined ≡ false → is_link layout.ranks link ≡ true
        → packet_of v.script link n ≡ Some packet → length packet ≤ packet_size layout link }
    ensures one_view { (layout : Layout) (s : TableState) → IsLinked layout s → (x : ℕ)
        → is_end layout.ranks x ≡ true → IsInOneView s x }
    ensures even_sender { (layout : Layout) (s : TableState) → IsLinked layout s → (j link n : ℕ)
        (v : View) (e : End) → get_elem? s.views j ≡ some v
        → end_in v.ends (sending_end link) ≡ Some e → slice_index s.words link ≡ 2 * n
        → e.next ≡ n }
    ensures even_receiver { (layout : Layout) (s : TableState) → IsLinked layout s
        → (j link n : ℕ) (v : View) (e : End) → get_elem? s.views j ≡ some v
        → end_in v.ends (receiving_end link) ≡ Some e → slice_index s.words link ≡ 2 * n
        → (e.next ≡ n) × (e.busy ≡ false) }
    ensures odd_sender { (layout : Layout) (s : TableState) → IsLinked layout s → (j link n : ℕ)
        (v : View) (e : End) → get_elem? s.views j ≡ some v
        → end_in v.ends (sending_end link) ≡ Some e → slice_index s.words link ≡ 2 * n + 1
        → (e.next ≡ n + 1) × (e.busy ≡ false) }
    ensures odd_receiver { (layout : Layout) (s : TableState) → IsLinked layout s
        → (j link n : ℕ) (v : View) (e : End) → get_elem? s.views j ≡ some v
        → end_in v.ends (receiving_end link) ≡ Some e → slice_index s.words link ≡ 2 * n + 1
        → e.next ≡ n }
    ensures odd_packet { (layout : Layout) (s : TableState) → IsLinked layout s → (j link n : ℕ)
        (v : View) → get_elem? s.views j ≡ some v → v.joined ≡ false
        → link < turn_count layout → slice_index s.words link ≡ 2 * n + 1
        → HavePacket layout v.script s.words link n }
    ensures busy_sender { (layout : Layout) (s : TableState) → IsLinked layout s → (j link : ℕ)
        (v : View) (e : End) → get_elem? s.views j ≡ some v
        → end_in v.ends (sending_end link) ≡ Some e → e.busy ≡ true
        → PutsPacket layout v.script s.words link e }
    ensures no_link { (layout : Layout) (s : TableState) → IsLinked layout s → (link : ℕ)
        → link < turn_count layout → is_link layout.ranks link ≡ false
        → slice_index s.words link ≡ 0 }
    ensures in_use { (layout : Layout) (s : TableState) → FollowsRule layout s → (j : ℕ)
        (v : View) → get_elem? s.views j ≡ some v → IsSeat v → IsLinked layout s }
{}

/// A post or take answers that it is not possible yet exactly where the last turn word that its end loaded is odd, or even. It is then
/// the word of the answer, and the seat made one step.
pub fn answers_by_the_loaded_word()
    ensures post { (x : ℕ) (packet : List ℕ) (answer : PostAnswer) (h k : Holding)
        → has_idle h x ≡ true → Posts x packet answer h k → (word : ℕ)
        → last_word k x ≡ Some word → (answer ≡ PostNotYet word) ↔ (word % 2 ≡ 1) }
    ensures post_step { (x : ℕ) (packet : List ℕ) (word : ℕ) (h k : Holding)
        → has_idle h x ≡ true → Posts x packet (PostNotYet word) h k
        → (last_word k x ≡ Some word) × (k.steps ≡ h.steps + 1) }
    ensures take { (link x : ℕ) (answer : TakeAnswer) (h k : Holding) (old new : PacketWords)
        → has_idle h x ≡ true → Takes link x answer h k old new → (word : ℕ)
        → last_word k x ≡ Some word → (answer ≡ TakeNotYet word) ↔ (word % 2 ≡ 0) }
    ensures take_step { (link x word : ℕ) (h k : Holding) (old new : PacketWords)
        → has_idle h x ≡ true → Takes link x (TakeNotYet word) h k old new
        → (last_word k x ≡ Some word) × (k.steps ≡ h.steps + 1) }
{}

/// In each run of a table, whatever the order of the steps of its seats, the last word of an end of a seat is the word that the table had
/// at the last load at that end; before the first load there is none.
pub fn last_words_are_loaded()
    ensures { (words : List ℕ) (seats : List RunSeat) → Runs words seats → (k : ℕ)
        (seat : RunSeat) → slice_get seats k ≡ Some seat → HasLoadedWords seat }
{}

/// A post or a take changes no end but its own, which is idle again. Its next number rises by one exactly where a packet was posted or
/// taken.
pub fn answers_change_one_end()
    ensures post { (x : ℕ) (packet : List ℕ) (answer : PostAnswer) (h k : Holding)
        → has_idle h x ≡ true → Posts x packet answer h k
        → ChangedOneEnd x (posted_count answer) h k }
    ensures take { (link x : ℕ) (answer : TakeAnswer) (h k : Holding) (old new : PacketWords)
        → has_idle h x ≡ true → Takes link x answer h k old new
        → ChangedOneEnd x (taken_count answer) h k }
{}

/// The first seat has both ends of each link, idle before packet 0. A split hands over exactly the ends of the rank: the sending ends
/// of the links from it, and the receiving ends of the links to it. A join has the ends of both seats.
pub fn seats_have_ends()
    ensures first_sender { (t : LinkTable) (packets : ℕ → ℕ → List (List ℕ)) (a b : ℕ)
        → HasLink t a b → end_in (first_holding t packets).ends (sender t a b)
        ≡ Some (idle_end 0 None) }
    ensures first_receiver { (t : LinkTable) (packets : ℕ → ℕ → List (List ℕ)) (a b : ℕ)
        → HasLink t a b → end_in (first_holding t packets).ends (receiver t a b)
        ≡ Some (idle_end 0 None) }
    ensures handed_sender { (h : Holding) (rank a b : ℕ) → HasLink h.links a b
        → end_in (handed_holding rank h).ends (sender h.links a b)
        ≡ cond (eqb a rank) (end_in h.ends (sender h.links a b)) None }
    ensures handed_receiver { (h : Holding) (rank a b : ℕ) → HasLink h.links a b
        → end_in (handed_holding rank h).ends (receiver h.links a b)
        ≡ cond (eqb b rank) (end_in h.ends (receiver h.links a b)) None }
    ensures kept_sender { (h : Holding) (rank a b : ℕ) → HasLink h.links a b
        → end_in (after_split rank h).ends (sender h.links a b)
        ≡ cond (eqb a rank) None (end_in h.ends (sender h.links a b)) }
    ensures kept_receiver { (h : Holding) (rank a b : ℕ) → HasLink h.links a b
        → end_in (after_split rank h).ends (receiver h.links a b)
        ≡ cond (eqb b rank) None (end_in h.ends (receiver h.links a b)) }
    ensures joined { (h k : Holding) (x : ℕ) → end_in (after_join h k).ends x
        ≡ cond (eqb (occurrences x h.ends) 1) (end_in h.ends x) (end_in k.ends x) }
{}

/// The links of a table are the pairs of different ranks. Their data words follow the turn words in the order of the turn words, one
/// more than the link's size; and the script's packets of a link are those of its pair.
pub fn links_are_pairs()
    ensures links { (ranks a b : ℕ) → a < ranks → b < ranks → a ≢ b
        → is_link ranks (turn_word ranks a b) ≡ true }
    ensures pairs { (ranks link : ℕ) → 0 < ranks → is_link ranks link ≡ true → (a b : ℕ)
        × (a < ranks) × (b < ranks) × (a ≢ b) × (link ≡ turn_word ranks a b) }
    ensures first { (ranks : ℕ) (sizes : List (List ℕ))
        → first_word (layout_of ranks sizes) 0 ≡ ranks * ranks }
    ensures next { (ranks : ℕ) (sizes : List (List ℕ)) (link : ℕ) → link < ranks * ranks
        → first_word (layout_of ranks sizes) (link + 1)
        ≡ first_word (layout_of ranks sizes) link + given_room ranks sizes link }
    ensures size { (ranks : ℕ) (sizes : List (List ℕ)) (a b : ℕ) → a < ranks → b < ranks
        → a ≢ b → packet_size (layout_of ranks sizes) (turn_word ranks a b)
        ≡ given_size sizes a b }
    ensures packets { (ranks a b : ℕ) (packets : ℕ → ℕ → List (List ℕ)) → a < ranks → b < ranks
        → slice_index_or (script_over ranks packets) (turn_word ranks a b) [] ≡ packets a b }
{}
