//! Laws of the anchor, over sync bytes.

ghost use Rattle.std.specs.Prelude.{◌≡◌, ℕ, ◌+◌, ◌-◌, ◌%◌, ◌<◌, ◌≤◌, ◌==◌, true, false, Some, None, List, [], ◌∷◌};
ghost use Rattle.std.specs.Prelude.{◌++◌, length, take, slice_set};
ghost use Rattle.dtx_cadence.specs.Anchor.{has_mark, anchor};
ghost use Rattle.dtx_cadence.specs.Cadence.{IsMarked, AreAlike, AreAlikeWhereDue, HaveSameAnchors, HasMarksRound};
ghost use Rattle.dtx_cadence.specs.Cadence.{IsInStep, IsAnchored};

/// One missing mark moves nothing. Under an anchor, a packet may have any sync byte if marks stand 624 packets before
/// it and 624 behind it. The mark behind it is needed only if the packets go that far.
pub fn one_missing_mark()
    ensures { (syncs : List ℕ) (i j sync : ℕ) → anchor (take i syncs) ≡ Some j → i < length syncs
        → HasMarksRound syncs i → HaveSameAnchors syncs (slice_set syncs i sync) }
{}

/// Any number of stray marks move nothing under an anchor. Two lists of sync bytes have the same anchors if they have
/// the same marks up to the anchor and where marks are due.
pub fn stray_marks()
    ensures { (xs ys : List ℕ) (j : ℕ) → length xs ≡ length ys → anchor xs ≡ Some j → AreAlike xs ys (j + 1)
        → AreAlikeWhereDue xs ys j → HaveSameAnchors xs ys }
{}

/// Two due marks that are missing in a row end an anchor, at the second one's packet.
pub fn two_missing_marks()
    ensures { (syncs : List ℕ) (sync j : ℕ) → anchor syncs ≡ Some j → (length syncs - j) % 624 ≡ 0
        → (sync == 0xB8) ≡ false → has_mark syncs (length syncs - 624) ≡ false → anchor (syncs ++ sync ∷ []) ≡ None }
{}

/// An anchor out of step with a feed is lost before the feed's third mark, whatever came before the feed. Then there is
/// no anchor, or one in step. In both cases one anchor holds from the feed's next mark on.
pub fn from_the_third_mark()
    ensures third { (before feed : List ℕ) → IsMarked feed → 1248 ≤ length feed
        → IsInStep (before ++ take 1248 feed) }
    ensures holds { (before feed : List ℕ) → IsMarked feed → 0 < length feed → IsInStep before
        → IsAnchored before feed 0 }
{}
