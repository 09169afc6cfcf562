//! Laws of the outer coding of consecutive packets, over the definitions. They hold of successive calls of
//! `Outer::code`, each with its packet's place in the whitener's period, whichever parts the `Outer` has.

pub mod words;

ghost use Rattle.std.specs.Prelude.{◌≡◌, ℕ, ◌+◌, ◌*◌, ◌<◌, ◌≤◌, ◌++◌, List, [], ◌∷◌, length, take, slice_index_or};
ghost use Rattle.std.specs.List.{concat};
ghost use Rattle.dtx_galois.specs.Field.{AreBytes};
ghost use Rattle.dtx_laws.specs.Branches.{Branching, HasWidths, spreading, zeroed, aligned, leaving_all, after_all};
ghost use Rattle.dtx_laws.specs.Branches.{leaving_calls, after_calls};
ghost use Rattle.dtx_laws.specs.Codeword.{IsCodeword};
ghost use Rattle.dtx_laws.specs.Interleaving.{interleaved, IsInterleavedBehind};
ghost use Rattle.dtx_outer.specs.Outer.{coded_as, codewords};

/// There is one codeword for each packet, in order, and each is as long as its data with the parity bytes.
pub fn each_packet()
    ensures count { (n k : ℕ) (white : List ℕ) (s : ℕ) (heads : List (List ℕ))
        → length (codewords n k white s heads) ≡ length heads }
    ensures at { (n k : ℕ) (white : List ℕ) (s : ℕ) (heads : List (List ℕ)) (i : ℕ) → i < length heads
        → slice_index_or (codewords n k white s heads) i [] ≡ coded_as n k white (s + i) (slice_index_or heads i []) }
    ensures is { (n k : ℕ) (white : List ℕ) (p : ℕ) (head : List ℕ) → k < n → AreBytes white → length head ≡ k
        → AreBytes head → IsCodeword n k (coded_as n k white p head) }
    ensures joined { (n k : ℕ) (white : List ℕ) (s : ℕ) (heads : List (List ℕ)) → k ≤ n
        → ((i : ℕ) → i < length heads → length (slice_index_or heads i []) ≡ k)
        → length (concat (codewords n k white s heads)) ≡ n * length heads }
{}

/// With one packet more, its codeword follows the others. After the calls of `Outer::code` for the others, one more
/// call gives the bytes that leave then, and the branches.
pub fn one_more()
    ensures codeword { (n k : ℕ) (white : List ℕ) (s : ℕ) (heads : List (List ℕ)) (head : List ℕ)
        → codewords n k white s (heads ++ head ∷ []) ≡ codewords n k white s heads
        ++ coded_as n k white (s + length heads) head ∷ [] }
    ensures bytes { (b : ℕ) (v : Branching) (calls : List (List ℕ)) (call : List ℕ)
        → leaving_calls b v (calls ++ call ∷ []) ≡ leaving_calls b v calls
        ++ leaving_all b (after_calls b v calls) call }
    ensures branches { (b : ℕ) (v : Branching) (calls : List (List ℕ)) (call : List ℕ)
        → after_calls b v (calls ++ call ∷ []) ≡ after_all b (after_calls b v calls) call }
{}

/// Through aligned branches full of zeros, the codewords leave as the interleaver's map of places says.
pub fn from_zeros()
    ensures { (n k b m : ℕ) (white : List ℕ) (s : ℕ) (heads : List (List ℕ)) → 0 < b
        → leaving_calls b (zeroed b (spreading m)) (codewords n k white s heads)
        ≡ interleaved b m (concat (codewords n k white s heads)) }
{}

/// After an align, whatever the branches held, the codewords leave as the interleaver's map of places says. Where the
/// map's source lies before the align, a byte leaves that the branches held.
pub fn behind_align()
    ensures { (n k b m : ℕ) (white : List ℕ) (s : ℕ) (heads : List (List ℕ)) (v : Branching)
        → HasWidths b (spreading m) v
        → IsInterleavedBehind b m v.lists (concat (codewords n k white s heads))
        (leaving_calls b (aligned v) (codewords n k white s heads)) }
{}
