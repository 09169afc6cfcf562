//! Laws of the definitions: how operations packets are written and read.

ghost use Rattle.std.specs.Prelude.{◌≡◌, ℕ, ◌≤◌, List, Some, None, Ok, Err, drop, length, take};
ghost use Rattle.byteorder.specs.Endian.{big_bytes, big_number};
ghost use Rattle.dtx_galois.specs.Field.{AreBytes};
ghost use Rattle.dtx_laws.specs.Codeword.{IsCorrection, distance};
ghost use Rattle.dtx_packets.specs.Packets.{pid_of};
ghost use Rattle.dtx_ops.specs.declared.fields.Ops.{Ops};
ghost use Rattle.dtx_ops.specs.declared.refusal.OpsNo.{OpsNo};
ghost use Rattle.dtx_ops.specs.Fields.{fields};
ghost use Rattle.dtx_ops.specs.Reading.{first, data_rules, corrected, rules, reading, ReadsAs};
ghost use Rattle.dtx_ops.specs.Spelling.{IsValid, data_of, spelling};

/// `reading` gives exactly the fields that `ReadsAs` relates to a packet. It refuses a packet exactly by the first rule
/// that holds.
pub fn readings()
    ensures reads_as { (packet : List ℕ) (f : Ops) → reading packet ≡ Ok f → ReadsAs packet f }
    ensures reads { (packet : List ℕ) (f : Ops) → length packet ≡ 188 → ReadsAs packet f → reading packet ≡ Ok f }
    ensures refused { (packet : List ℕ) (refusal : OpsNo) → reading packet ≡ Err refusal
        → first (rules packet) ≡ Some refusal }
    ensures refuses { (packet : List ℕ) (refusal : OpsNo) → first (rules packet) ≡ Some refusal
        → reading packet ≡ Err refusal }
{}

/// A packet has corrected data exactly if its payload has a correction. They are the data of the correction, its first
/// 164 bytes.
pub fn corrected_data()
    ensures some { (packet code : List ℕ) → length packet ≡ 188 → IsCorrection 184 164 (drop 4 packet) code
        → corrected packet ≡ Some (take 164 code) }
    ensures none { (packet : List ℕ) → length packet ≡ 188 → corrected packet ≡ None → (code : List ℕ)
        → IsCorrection 184 164 (drop 4 packet) code → ⊥ }
{}

/// A written packet reads as the same fields, even with up to ten bytes of its payload changed. All bits of its first
/// four bytes may change too, but for the packet identifier.
pub fn written_reads_back()
    ensures pid { (f : Ops) (counter sync : ℕ) → pid_of (spelling f counter sync) ≡ 0x1FFA }
    ensures fields { (f : Ops) (counter sync : ℕ) (packet : List ℕ) → IsValid f → length packet ≡ 188
        → pid_of packet ≡ 0x1FFA
        → distance (drop 4 packet) (drop 4 (spelling f counter sync)) ≤ 10 → reading packet ≡ Ok f }
{}

/// Valid fields are spelled by 164 bytes. No rule refuses these, and they hold the same fields.
pub fn valid_fields_are_spelled()
    ensures long { (f : Ops) → IsValid f → length (data_of f) ≡ 164 }
    ensures bytes { (f : Ops) → IsValid f → AreBytes (data_of f) }
    ensures unrefused { (f : Ops) → IsValid f → first (data_rules (data_of f)) ≡ None }
    ensures fields { (f : Ops) → IsValid f → fields (data_of f) ≡ f }
{}

/// Data that no rule refuses hold valid fields, and are the only way to spell them.
pub fn unrefused_data_are_spelled()
    ensures valid { (bytes : List ℕ) → length bytes ≡ 164 → AreBytes bytes → first (data_rules bytes) ≡ None
        → IsValid (fields bytes) }
    ensures spelled { (bytes : List ℕ) → length bytes ≡ 164 → AreBytes bytes → first (data_rules bytes) ≡ None
        → data_of (fields bytes) ≡ bytes }
{}

/// Bytes that are read as a number, the highest first, and written again are the same bytes.
pub fn bytes_of_their_number()
    ensures { (n : ℕ) (bytes : List ℕ) → length bytes ≡ n → AreBytes bytes → big_bytes n (big_number n bytes) ≡ bytes }
{}
