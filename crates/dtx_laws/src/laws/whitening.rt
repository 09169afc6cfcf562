//! Laws of whitening, for every list of bytes. They are laws of the definition, so they hold of every whitener.

ghost use Rattle.std.specs.Prelude.{◌≡◌, ℕ, List, length};
ghost use Rattle.dtx_galois.specs.Field.{AreBytes};
ghost use Rattle.dtx_laws.specs.Whitening.{whitened};

/// Whitening keeps the number of bytes, and gives bytes.
pub fn kept()
    ensures long { (white head : List ℕ) (from : ℕ) → length (whitened white from head) ≡ length head }
    ensures are_bytes { (white head : List ℕ) (from : ℕ) → AreBytes white → AreBytes head
        → AreBytes (whitened white from head) }
{}

/// Whitening data twice gives them back.
pub fn twice()
    ensures { (white head : List ℕ) (from : ℕ) → whitened white from (whitened white from head) ≡ head }
{}
