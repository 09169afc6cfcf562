//! The randomizer's bytes, made once.

ghost use Rattle.std.specs.Prelude.{◌≡◌, ◌*◌, ◌<◌, EachIndex, IfOk, length, slice_index};
ghost use Rattle.std.proofs.Common.{lit<};
ghost use Rattle.dtx_galois.proofs.BytesLemmas.{AreBytes-from_places};
ghost use Rattle.dtx_sizes.specs.declared.fields.TheConstants.{FIELD_PACKETS};
ghost use Rattle.dtx_sizes.specs.declared.packets.TheConstants.{PACKET_DATA};
ghost use Rattle.dtx_whiten.specs.Randomizer.{randomizer_bytes};

use crate::register::{PRELOAD, shifted, tapped};
use dtx_laws::Whitener;
use dtx_sizes::{FIELD_PACKETS, PACKET_DATA};
use std::alloc::{AllocError, Global};

/// The randomizer's bytes for the packets of a data field, one packet after another.
#[derive(Drop)]
pub struct Atsc {
    bytes: Vec<u8>,
    ghost long: { length bytes.items ≡ PACKET_DATA * FIELD_PACKETS },
    ghost all: { bytes.items ≡ randomizer_bytes },
    ghost small: { EachIndex bytes.items (λ i. slice_index bytes.items i < 256) },
}

impl Whitener for Atsc {
    const PERIOD: usize = PACKET_DATA * FIELD_PACKETS as usize;

    ghost PERIOD = { PACKET_DATA * FIELD_PACKETS };

    ghost bytes = { λ atsc. atsc.bytes.items };

    fn byte(&self, at: usize) -> u8 {
        self.bytes[at]
    }

    ghost long = { λ atsc. atsc.long };

    ghost are_bytes = { λ atsc. AreBytes-from_places atsc.bytes.items atsc.small };

    ghost fits = { lit< tt };
}

impl Atsc {
    /// Makes the bytes by shifting the register, from its preload on. The only error is out of memory.
    pub fn new(alloc: Global) -> Result<Atsc, AllocError>
        ensures { IfOk result (λ atsc. ⟦<Atsc as Whitener>⟧.bytes atsc ≡ randomizer_bytes) }
    {
        let mut bytes = Vec::with_capacity(alloc, Self::PERIOD)?;
        let mut register = PRELOAD;
        for _shifts in 0..Self::PERIOD {
            bytes.push(tapped(register))?;
            register = shifted(register);
        }
        Ok(Atsc { bytes })
    }
}
