//! The tables that coders use.

ghost use Rattle.std.specs.Prelude.{◌≡◌};
ghost use Rattle.dtx_whiten.specs.Randomizer.{randomizer_bytes};

use dtx_laws::Whitener;
use dtx_rs::Rs;
use dtx_sizes::{CODEWORD, PACKET_DATA};
use dtx_whiten::Atsc;
use std::alloc::{AllocError, Global};
use std::rc::Rc;

/// The tables that a [`Coder`](crate::Coder) needs, which are the same for each: the randomizer's bytes and the rows of
/// the Reed-Solomon encoder, 80 kB. Coders that are made from one value share them.
#[derive(Drop)]
pub struct Tables {
    pub(crate) whitener: Rc<Atsc>,
    pub(crate) code: Rc<Rs<CODEWORD, PACKET_DATA>>,
    ghost white: { ⟦<Atsc as Whitener>⟧.bytes whitener.value ≡ randomizer_bytes },
}

impl Tables {
    /// Makes the tables. The only error is out of memory.
    pub fn new(alloc: Global) -> Result<Tables, AllocError> {
        Ok(Tables {
            whitener: Rc::new(alloc, Atsc::new(alloc)?)?,
            code: Rc::new(alloc, Rs::new())?,
        })
    }
}
