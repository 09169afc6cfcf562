//! Laws of the definitions: what an exciter sends and logs.

ghost use Rattle.std.specs.Prelude.{◌≡◌, ◌↔◌, ℕ, ℤ, ◌+◌, ◌-◌, ◌-ℤ◌, ◌*◌, ◌%◌, ◌<◌, ◌≤◌, ◌==◌, ◌&&◌, true, false};
ghost use Rattle.std.specs.Prelude.{if◌then◌else◌, Option, Some, None, List, [], ◌∷◌, ◌++◌, length, map, drop};
ghost use Rattle.std.specs.Prelude.{slice_range, slice_set, slice_index_or, take};
ghost use Rattle.dtx_cadence.specs.Cadence.{AreAlike, AreAlikeWhereDue, HasMarksRound};
ghost use Rattle.dtx_ops.specs.declared.fields.Ops.{Ops};
ghost use Rattle.dtx_exciter.specs.Order.{Order, counting_order, orders};
ghost use Rattle.dtx_exciter.specs.Pages.{pages, of_one_cycle, all_pages_told, entry_in_force, WasTold};
ghost use Rattle.dtx_exciter.specs.declared.answers.Why.TheVariants.{Unlisted};
ghost use Rattle.dtx_exciter.specs.declared.answers.Told.TheVariants.{Quiet, Muted};
ghost use Rattle.dtx_exciter.specs.Packets.{syncs, anchor_of, readings, under, last_answer, group_part, bodies};
ghost use Rattle.dtx_exciter.specs.Packets.{AreSentAlike};
ghost use Rattle.dtx_exciter.specs.Told.{told_at, is_sent};
ghost use Rattle.dtx_exciter.specs.Emission.{was_sent, last_segments, emission};
ghost use Rattle.dtx_exciter.specs.Lockstep.{IsFeed, locked_from, HasLock, IsStretch, stretch};
ghost use Rattle.dtx_exciter.specs.Log.{preset, life_lines, log, restarted_lines, restarting_lines, emission_over};
ghost use Rattle.dtx_exciter.specs.Stretch.{emission_behind, lines_behind, sync_behind, before_stretch, order_moment};
ghost use Rattle.dtx_exciter.specs.Stretch.{preset_line, orders_in, stretch_lines, AreApart};

// ---- one life

/// The packet of a feed from which on an exciter is locked to it. The exciter is given the feed unchanged from one of
/// its marks on. In a new life it is locked from that mark on. Behind any earlier packets it is locked by the third
/// mark, since a lock out of step is lost before that. From there on one anchor holds, in step with the feed.
pub fn locked()
    ensures anew { (mark : ℕ) → locked_from [] mark ≡ mark }
    ensures soon { (earlier : List (List ℕ)) (mark : ℕ)
        → (mark ≤ locked_from earlier mark) × (locked_from earlier mark ≤ mark + 1248) }
    ensures lock { (address delay : ℕ) (offset : ℤ) (feed earlier : List (List ℕ)) (mark : ℕ)
        → IsFeed address delay offset feed → mark % 624 ≡ 0 → locked_from earlier mark < length feed
        → HasLock earlier feed mark (locked_from earlier mark) }
{}

/// An exciter is given a feed unchanged from one of its marks on. Take any order that lists the exciter's address and
/// whose group begins 52 or more packets behind the place from which it is locked. From the first data segment of that
/// group on it gives just the feed's own segments, in a row and with nothing between. They go up to the last whole
/// group before packet `end`, and the segments of later packets follow them. In front of them stand the segments given
/// before the last packet of the first group, and then at most one field sync.
pub fn lockstep()
    ensures exact { (address delay : ℕ) (offset : ℤ) (feed earlier : List (List ℕ)) (mark end k : ℕ)
        → IsFeed address delay offset feed → IsStretch address feed (locked_from earlier mark) mark end k
        → emission address delay (earlier ++ slice_range feed mark end)
        ≡ before_stretch address delay earlier feed mark k ++ stretch feed k end }
    ensures behind { (address delay : ℕ) (offset : ℤ) (feed earlier later : List (List ℕ)) (mark end k : ℕ)
        → IsFeed address delay offset feed → IsStretch address feed (locked_from earlier mark) mark end k
        → emission address delay (earlier ++ (slice_range feed mark end ++ later))
        ≡ before_stretch address delay earlier feed mark k
        ++ (stretch feed k end ++ emission_behind address delay (earlier ++ slice_range feed mark end) later) }
{}

/// How many segments stand before the stretch: as many as are given before the last packet of its first group. Where a
/// field sync stands in front of that group, there is one more.
pub fn counts()
    ensures before { (address delay : ℕ) (feed earlier : List (List ℕ)) (mark k : ℕ)
        → length (before_stretch address delay earlier feed mark k)
        ≡ length (emission address delay (earlier ++ slice_range feed mark (k + 3))) + length
        (sync_behind (last_segments address delay (earlier ++ slice_range feed mark k)) k) }
    ensures sync { (segments : List (List ℤ)) (k : ℕ) → length (sync_behind segments k) ≤ 1 }
{}

/// The log of the stretch. First come the lines of the packets before the last one of the stretch's first group. Then
/// comes one line for each order of the stretch, and no other. It names the first data segment of the order's group and
/// the moment of that segment.
pub fn lines()
    ensures exact { (address delay n : ℕ) (offset : ℤ) (feed earlier : List (List ℕ)) (mark end k : ℕ)
        → IsFeed address delay offset feed → IsStretch address feed (locked_from earlier mark) mark end k
        → life_lines address delay n (earlier ++ slice_range feed mark end)
        ≡ life_lines address delay n (earlier ++ slice_range feed mark (k + 3))
        ++ stretch_lines offset (n + length (before_stretch address delay earlier feed mark k)) feed k end }
    ensures behind { (address delay n : ℕ) (offset : ℤ) (feed earlier later : List (List ℕ)) (mark end k : ℕ)
        → IsFeed address delay offset feed → IsStretch address feed (locked_from earlier mark) mark end k
        → life_lines address delay n (earlier ++ (slice_range feed mark end ++ later))
        ≡ life_lines address delay n (earlier ++ slice_range feed mark (k + 3))
        ++ (stretch_lines offset (n + length (before_stretch address delay earlier feed mark k)) feed k end
        ++ lines_behind address delay n (earlier ++ slice_range feed mark end) later) }
{}

/// The first line of a stretch is that of its first group, and names the stretch's first segment.
pub fn first_line()
    ensures { (offset : ℤ) (s : ℕ) (feed : List (List ℕ)) (end k : ℕ) (ops : Ops) → k + 4 ≤ end
        → counting_order (readings feed) k ≡ Some ops
        → stretch_lines offset s feed k end
        ≡ preset s ops.frame (k % 624) (order_moment offset (record { place = k; ops = ops })).tick
        (order_moment offset (record { place = k; ops = ops })).grain
        ∷ map (preset_line offset s k) (orders_in feed (k + 1) end) }
{}

/// How many segments a packet gives. It gives none unless the answer to it is `Sent`, and otherwise the group's four
/// data segments. It gives one more if the group begins a field and the group before it was sent too.
pub fn sent_packets_give()
    ensures none { (address delay : ℕ) (packets : List (List ℕ)) (packet : List ℕ)
        → is_sent (last_answer address delay (packets ++ packet ∷ [])) ≡ false
        → last_segments address delay (packets ++ packet ∷ []) ≡ [] }
    ensures some { (address delay : ℕ) (packets : List (List ℕ)) (packet : List ℕ)
        → is_sent (last_answer address delay (packets ++ packet ∷ [])) ≡ true
        → (l : List (List ℕ)) × (under (packets ++ packet ∷ []) ≡ Some l)
        × (length (last_segments address delay (packets ++ packet ∷ []))
        ≡ (if was_sent address delay (readings l) (length l - 4) && ((length l - 4) % 312 == 0) then 5 else 4)) }
{}

/// How many segments packets give at most. Let p be how many of the packets from the anchor on stand in no whole group.
/// It is 0 without an anchor, and at most 3. Let q be the same number after one more packet. That packet gives at most
/// 5 (p + 1 - q) / 4 segments. So m packets in a row give at most 5 (p + m) / 4.
pub fn groups_are_spaced()
    ensures spaced { (address delay : ℕ) (packets : List (List ℕ)) (packet : List ℕ)
        → 4 * length (last_segments address delay (packets ++ packet ∷ [])) + 5 * group_part (packets ++ packet ∷ [])
        ≤ 5 * (group_part packets + 1) }
    ensures part { (packets : List (List ℕ)) → group_part packets ≤ 3 }
{}

/// Later packets change no segment of earlier ones. Their own segments follow, one packet after another.
pub fn emission_goes_on()
    ensures { (address delay : ℕ) (packets more : List (List ℕ))
        → emission address delay (packets ++ more) ≡ emission address delay packets
        ++ emission_behind address delay packets more }
{}

/// Later packets change no line of earlier ones. Their own lines follow.
pub fn lines_go_on()
    ensures { (address delay n : ℕ) (packets more : List (List ℕ))
        → life_lines address delay n (packets ++ more) ≡ life_lines address delay n packets
        ++ lines_behind address delay n packets more }
{}

// ---- sync bytes

/// An exciter uses sync bytes for marks alone. Packets that differ in their sync bytes alone, and have the same anchor
/// behind each packet, have the same answers, segments and lines.
pub fn sync_bytes_are_not_sent()
    ensures answers { (address delay n : ℕ) (xs ys : List (List ℕ)) → AreSentAlike xs ys → n ≤ length xs
        → last_answer address delay (take n xs) ≡ last_answer address delay (take n ys) }
    ensures segments { (address delay : ℕ) (xs ys : List (List ℕ)) → AreSentAlike xs ys
        → emission address delay xs ≡ emission address delay ys }
    ensures lines { (address delay n : ℕ) (xs ys : List (List ℕ)) → AreSentAlike xs ys
        → life_lines address delay n xs ≡ life_lines address delay n ys }
{}

/// One missing mark changes nothing. Under an anchor, a packet may have any sync byte if marks stand 624 packets before
/// it and behind it.
pub fn one_missing_mark()
    ensures { (packets : List (List ℕ)) (packet : List ℕ) (i j : ℕ) → anchor_of (take i packets) ≡ Some j
        → i < length packets → HasMarksRound (syncs packets) i → drop 1 packet ≡ drop 1 (slice_index_or packets i [])
        → AreSentAlike packets (slice_set packets i packet) }
{}

/// Any number of stray marks change nothing under an anchor. This holds of packets that differ in their sync bytes
/// alone, and have the same marks up to the anchor and where marks are due.
pub fn stray_marks()
    ensures { (xs ys : List (List ℕ)) (j : ℕ) → bodies xs ≡ bodies ys → anchor_of xs ≡ Some j
        → AreAlike (syncs xs) (syncs ys) (j + 1) → AreAlikeWhereDue (syncs xs) (syncs ys) j → AreSentAlike xs ys }
{}

// ---- two transmitters

/// Two transmitters are given a feed from a mark of it on, each behind packets of its own. In a stretch that begins
/// with an order that lists both, they give the same segments. For each order there both give a line of the same frame
/// and packet. The moments of these two lines differ by the difference of the two offsets, in ticks of 1539 grains, and
/// otherwise by whole seconds.
pub fn same_everywhere()
    ensures segments { (a b delay_a delay_b : ℕ) (offset_a offset_b : ℤ) (feed earlier_a earlier_b : List (List ℕ))
        (mark_a mark_b end k : ℕ) → IsFeed a delay_a offset_a feed → IsFeed b delay_b offset_b feed
        → IsStretch a feed (locked_from earlier_a mark_a) mark_a end k
        → IsStretch b feed (locked_from earlier_b mark_b) mark_b end k
        → drop (length (before_stretch a delay_a earlier_a feed mark_a k))
        (emission a delay_a (earlier_a ++ slice_range feed mark_a end))
        ≡ drop (length (before_stretch b delay_b earlier_b feed mark_b k))
        (emission b delay_b (earlier_b ++ slice_range feed mark_b end)) }
    ensures moments { (offset_a offset_b : ℤ) (s r : ℕ) (feed : List (List ℕ)) (end k : ℕ)
        → AreApart (offset_a -ℤ offset_b) (orders_in feed k end) (stretch_lines offset_a s feed k end)
        (stretch_lines offset_b r feed k end) }
{}

// ---- several pages

/// The answer at an order to a transmitter without an entry in force. It is `Muted Unlisted` exactly if all pages were
/// told. Otherwise it is `Quiet`, and the transmitter waits for its page. All pages were told exactly if two things
/// hold of each page of the order in force. Some order told the page, and each order from there on has the same number
/// of pages.
pub fn pages()
    ensures answer { (address delay : ℕ) (order : Order) (older : List Order)
        → entry_in_force address (order ∷ older) ≡ None
        → told_at address delay order.place (order ∷ older)
        ≡ (if all_pages_told (of_one_cycle (order ∷ older)) then Muted Unlisted else Quiet) }
    ensures told { (said : List (Option Ops)) (i : ℕ) (order : Order) (older : List Order)
        → orders said i ≡ order ∷ older
        → (all_pages_told (of_one_cycle (order ∷ older)) ≡ true)
        ↔ ((k : ℕ) → k < pages order → WasTold said i (pages order) k) }
{}

// ---- several lives

/// The segments and the log of several lives, split at one of them. They are those of the lives before it, its own, and
/// those of the lives behind it, with a restart between any two. Each line counts all segments before it, those of
/// earlier lives too.
pub fn in_lives()
    ensures segments { (address delay : ℕ) (xs ys : List (List (List ℕ))) (life : List (List ℕ))
        → emission_over address delay (xs ++ life ∷ ys) ≡ emission_over address delay xs
        ++ (emission address delay life ++ emission_over address delay ys) }
    ensures lines { (address delay n : ℕ) (xs ys : List (List (List ℕ))) (life : List (List ℕ))
        → log address delay n (xs ++ life ∷ ys)
        ≡ restarted_lines address delay n xs
        ++ (life_lines address delay (n + length (emission_over address delay xs)) life
        ++ restarting_lines address delay (n + length (emission_over address delay xs) + length
        (emission address delay life)) ys) }
{}

/// Lockstep in one of several lives: all that the transmitter sends, and its whole log, with the stretch and its lines
/// in them.
pub fn lockstep_in_lives()
    ensures segments { (address delay : ℕ) (offset : ℤ) (feed earlier later : List (List ℕ))
        (xs ys : List (List (List ℕ))) (mark end k : ℕ) → IsFeed address delay offset feed
        → IsStretch address feed (locked_from earlier mark) mark end k
        → emission_over address delay (xs ++ (earlier ++ (slice_range feed mark end ++ later)) ∷ ys)
        ≡ (emission_over address delay xs ++ before_stretch address delay earlier feed mark k)
        ++ (stretch feed k end ++ (emission_behind address delay (earlier ++ slice_range feed mark end) later
        ++ emission_over address delay ys)) }
    ensures lines { (address delay n : ℕ) (offset : ℤ) (feed earlier later : List (List ℕ))
        (xs ys : List (List (List ℕ))) (mark end k : ℕ) → IsFeed address delay offset feed
        → IsStretch address feed (locked_from earlier mark) mark end k
        → let s : ℕ = n + length (emission_over address delay xs) in
        log address delay n (xs ++ (earlier ++ (slice_range feed mark end ++ later)) ∷ ys)
        ≡ (restarted_lines address delay n xs ++ life_lines address delay s (earlier ++ slice_range feed mark (k + 3)))
        ++ (stretch_lines offset (s + length (before_stretch address delay earlier feed mark k)) feed k end
        ++ (lines_behind address delay s (earlier ++ slice_range feed mark end) later
        ++ restarting_lines address delay (s + length
        (emission address delay (earlier ++ (slice_range feed mark end ++ later)))) ys)) }
{}
