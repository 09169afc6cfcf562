//! Laws of damage that is laid over the bytes of a file (the profile's own).

ghost use Rattle.std.specs.Prelude.{◌≡◌, ℕ, ◌+◌, ◌<◌, ◌≤◌, ◌++◌, IsTrue, Contains, None, [], List, length, slice_index};
ghost use Rattle.std.specs.Int.{w8, cast_unsigned};
ghost use Rattle.dtx_plan.specs.declared.damage.Damage.{Damage};
ghost use Rattle.dtx_make.specs.Hurt.{AreInOrder, covers, entry_at, damaged_bytes, hurt, damaged_from, damaged_places};

/// Damage laid over each piece of some bytes, at the piece's place, is the damage laid over the whole.
pub fn laid_in_pieces()
    ensures piece { (damage : List Damage) (place : ℕ) (first rest : List ℕ)
        → damaged_bytes damage place (first ++ rest) ≡ damaged_bytes damage place first
        ++ damaged_bytes damage (place + length first) rest }
    ensures file { (damage : List Damage) (first rest : List ℕ)
        → hurt damage (first ++ rest) ≡ hurt damage first ++ damaged_bytes damage (length first) rest }
{}

/// Damaged bytes are as many as the bytes before.
pub fn length_stays()
    ensures { (damage : List Damage) (place : ℕ) (bytes : List ℕ)
        → length (damaged_bytes damage place bytes) ≡ length bytes }
{}

/// If the entries are in order, a byte that one of them covers becomes that entry's `put`. A byte that none covers
/// stays.
pub fn each_byte()
    ensures covered { (damage : List Damage) (place i : ℕ) (bytes : List ℕ) (entry : Damage) → AreInOrder damage
        → i < length bytes
        → Contains damage entry → IsTrue (covers (place + i) entry)
        → slice_index (damaged_bytes damage place bytes) i ≡ cast_unsigned w8 entry.put }
    ensures stays { (damage : List Damage) (place i : ℕ) (bytes : List ℕ) → i < length bytes
        → entry_at damage (place + i) ≡ None → slice_index (damaged_bytes damage place bytes) i ≡ slice_index bytes i }
{}

/// Without an entry the bytes stay, and no place is counted.
pub fn no_entry()
    ensures bytes { (place : ℕ) (bytes : List ℕ) → damaged_bytes [] place bytes ≡ bytes }
    ensures count { (place count : ℕ) → damaged_from [] place count ≡ 0 }
{}

/// The counts of pieces add up, and no more places are counted than there are.
pub fn counted_in_pieces()
    ensures piece { (damage : List Damage) (place first rest : ℕ)
        → damaged_from damage place (first + rest)
        ≡ damaged_from damage place first + damaged_from damage (place + first) rest }
    ensures file { (damage : List Damage) (first rest : ℕ)
        → damaged_places damage (first + rest) ≡ damaged_places damage first + damaged_from damage first rest }
    ensures most { (damage : List Damage) (place count : ℕ) → damaged_from damage place count ≤ count }
{}
