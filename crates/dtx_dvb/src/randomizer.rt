//! The randomizer's bytes, made once (EN 300 429, 7.1).

ghost use Rattle.std.specs.Prelude.{◌≡◌, ℕ, ◌+◌, ◌*◌, ◌<◌, ◌≤◌, EachIndex, IfOk, length, slice_index};
ghost use Rattle.std.proofs.Common.{lit<};
ghost use Rattle.dtx_galois.proofs.BytesLemmas.{AreBytes-from_places};
ghost use Rattle.dtx_dvb.specs.declared.sizes.TheConstants.{PERIOD};
ghost use Rattle.dtx_dvb.specs.Randomizer.{loaded, sequence, eight_bits, randomizer_byte, randomizer_bytes};

use crate::sizes::PERIOD;
use dtx_laws::Whitener;
use dtx_sizes::PACKET;
use std::alloc::{AllocError, Global};

/// The bits that the sequence is loaded with, o[-15] to o[-1].
const LOADED: [u8; 15] = [0, 0, 0, 0, 0, 0, 0, 1, 0, 1, 0, 1, 0, 0, 1];

/// The number of the sequence's bits in a period. Byte 0 takes none of them.
const PERIOD_BITS: usize = 8 * (PERIOD - 1);

/// The randomizer's bytes for the eight packets of its period, one after another.
#[derive(Drop)]
pub struct Dvb {
    bytes: Vec<u8>,
    ghost long: { length bytes.items ≡ PERIOD },
    ghost all: { bytes.items ≡ randomizer_bytes },
    ghost small: { EachIndex bytes.items (λ i. slice_index bytes.items i < 256) },
}

impl Whitener for Dvb {
    const PERIOD: usize = PERIOD;

    ghost PERIOD = { PERIOD };

    ghost bytes = { λ dvb. dvb.bytes.items };

    fn byte(&self, at: usize) -> u8 {
        self.bytes[at]
    }

    ghost long = { λ dvb. dvb.long };

    ghost are_bytes = { λ dvb. AreBytes-from_places dvb.bytes.items dvb.small };

    ghost fits = { lit< tt };
}

impl Dvb {
    /// Makes the bytes from the bits of the sequence. The only error is out of memory.
    pub fn new(alloc: Global) -> Result<Dvb, AllocError>
        ensures { IfOk result (λ dvb. ⟦<Dvb as Whitener>⟧.bytes dvb ≡ randomizer_bytes) }
    {
        let bits = period_bits(alloc)?;
        let mut bytes = Vec::with_capacity(alloc, PERIOD)?;
        for t in 0..PERIOD {
            bytes.push(byte_at(t, &bits))?;
        }
        Ok(Dvb { bytes })
    }
}

/// The sequence's bits for a period, behind the fifteen that it is loaded with. The only error is out of memory.
fn period_bits(alloc: Global) -> Result<Vec<u8>, AllocError>
    ensures { IfOk result (λ bits. bits.items ≡ sequence PERIOD_BITS) }
{
    let mut bits = Vec::from_array(alloc, LOADED)?;
    for t in 0..PERIOD_BITS {
        let next = bits[t + 1] ^ bits[t];
        bits.push(next)?;
    }
    Ok(bits)
}

/// Byte `t` of the randomizer. At a later sync byte it is 0, and the sequence runs on.
fn byte_at(t: usize, bits: &[u8]) -> u8
    requires bits { bits.now ≡ sequence PERIOD_BITS }
    requires within { t < PERIOD }
    ensures { result ≡ randomizer_byte t }
{
    if t == 0 {
        return 0xFF;
    }
    if t % PACKET == 0 {
        return 0;
    }
    byte_of(bits, LOADED.len() + 8 * (t - 1))
}

/// The byte of the eight bits from index `at` on, the highest first.
fn byte_of(bits: &[u8], at: usize) -> u8
    requires within { at + 8 ≤ length bits.now }
    requires small { EachIndex bits.now (λ i. slice_index bits.now i < 2) }
    ensures { result ≡ eight_bits (λ i. slice_index bits.now (at + i)) }
{
    let high = 128 * bits[at] as u32
        + 64 * bits[at + 1] as u32
        + 32 * bits[at + 2] as u32
        + 16 * bits[at + 3] as u32;
    let low = 8 * bits[at + 4] as u32
        + 4 * bits[at + 5] as u32
        + 2 * bits[at + 6] as u32
        + bits[at + 7] as u32;
    (high + low) as u8
}
