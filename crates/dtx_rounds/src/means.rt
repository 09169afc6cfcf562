//! What all rounds share.

ghost use Rattle.std.specs.Prelude.{◌≡◌, ◌<◌, ◌≤◌, IfOk, vec_len};

use crate::field::WORDS;
use crate::words::Corrector;
use dtx_fast::Fast;
use dtx_pins::{NO_PIN, Pinned};
use dtx_sizes::{CODERS, SEGMENT_ROUNDS};
use dtx_soft::MAX_SCALE;
use std::alloc::{AllocError, Global};
use std::rc::Rc;

/// The corrector that rounds use in turn, the decoder with its scale, and the room for the pins of a field.
#[derive(Drop)]
pub(crate) struct Means {
    pub(crate) corrector: Rc<Corrector>,
    pub(crate) decoder: Pinned,
    pub(crate) pins: Vec<[u16; CODERS]>,
    ghost some: { 0 < decoder },
    ghost most: { decoder ≤ 18 },
    ghost pins_long: { vec_len pins ≡ 21528 },
}

impl Means {
    /// The means of rounds at this scale. The only error is out of memory.
    pub(crate) fn new(alloc: Global, scale: u8) -> Result<Means, AllocError>
        requires some { 0 < scale }
        requires most { scale ≤ MAX_SCALE }
        ensures scale { IfOk result (λ means. means.decoder ≡ scale) }
    {
        Ok(Means {
            corrector: Rc::new(alloc, Fast::new())?,
            decoder: Pinned::scaled(scale),
            pins: vec![in alloc; [NO_PIN; CODERS]; SEGMENT_ROUNDS * WORDS]?,
        })
    }
}
