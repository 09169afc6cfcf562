// The tables of exciters.
use crate::orders::Corrector;
use std::alloc::{AllocError, Global};
use std::rc::Rc;

/// The tables that an [`Exciter`](crate::Exciter) needs: those of its coder and of the corrector of operations packets,
/// 125 kB. They are the same for each exciter. Exciters that are made from one value share them.
#[derive(Drop)]
pub struct Tables {
    pub(crate) coding: dtx_coder::Tables,
    pub(crate) corrector: Rc<Corrector>,
}

impl Tables {
    /// Computes the tables. The only error is out of memory.
    pub fn new(alloc: Global) -> Result<Tables, AllocError> {
        Ok(Tables {
            coding: dtx_coder::Tables::new(alloc)?,
            corrector: Rc::new(alloc, Corrector::new())?,
        })
    }

    /// The corrector of operations packets, shared. The only error is out of memory.
    pub fn corrector(&self) -> Result<Rc<Corrector>, AllocError> {
        self.corrector.clone()
    }
}
