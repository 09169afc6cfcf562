//! The traits for values behind an `Rc`, so that several owners may share one encoder, corrector or whitener.

use crate::corrector::{Correct, TooMany};
use crate::encoder::{Encode, PARITY};
use crate::whitener::Whitener;
use std::rc::Rc;

impl<W: Whitener> Whitener for Rc<W> {
    const PERIOD: usize = W::PERIOD;

    ghost PERIOD = { W.PERIOD };

    ghost bytes = { λ shared. W.bytes shared.value };

    fn byte(&self, at: usize) -> u8 {
        (**self).byte(at)
    }

    ghost long = { λ shared. W.long shared.value };

    ghost are_bytes = { λ shared. W.are_bytes shared.value };

    ghost fits = { W.fits };
}

impl<C: Encode<N, K>, const N: usize, const K: usize> Encode<N, K> for Rc<C> {
    fn known(&self) {
        (**self).known()
    }

    fn encode(&self, head: &[u8; K], word: &mut [u8; N]) {
        (**self).encode(head, word)
    }

    fn complete_four(&self, words: &mut [u8]) {
        (**self).complete_four(words)
    }

    fn parities(&self, words: &[[u8; N]; 4]) -> [[u8; PARITY]; 4] {
        (**self).parities(words)
    }
}

impl<C: Correct<N, K>, const N: usize, const K: usize> Correct<N, K> for Rc<C> {
    fn known(&self) {
        (**self).known()
    }

    fn correct(&self, word: &mut [u8; N]) -> Result<u8, TooMany> {
        (**self).correct(word)
    }

    fn correct_four(&self, words: &mut [[u8; N]; 4]) -> [Result<u8, TooMany>; 4] {
        (**self).correct_four(words)
    }
}
