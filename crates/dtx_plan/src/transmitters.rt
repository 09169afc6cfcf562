// The transmitters of a plan.
ghost use Rattle.std.specs.Prelude.{◌≡◌, ◌<◌, [], ◌∷◌, ◌++◌, length, IfOk, IfSome, OnOk, OnErr};
ghost use Rattle.dtx_plan.specs.TransmitterTable.{has_address, transmitter_place};

use crate::transmitter::Transmitter;
use std::alloc::{AllocError, Global};
use std::collections::BTreeMap;
use std::marker::Model;

/// The transmitters of a plan. Contracts see the value as the list of them. A lookup by address doesn't search the
/// list.
#[derive(Drop)]
pub struct Transmitters {
    all: Vec<Transmitter>,
    places: BTreeMap<u16, usize>,
}

impl Model for Transmitters {
    ghost use Rattle.std.specs.Prelude.{List};
    ghost use Rattle.dtx_plan.specs.declared.transmitter.Transmitter.{Transmitter};
    ghost use Rattle.dtx_plan.specs.TransmitterTable.{ArePlaces};

    ghost Value = { List Transmitter };

    ghost view = { λ t. t.all.items };

    ghost invariant = { λ t. ArePlaces t.places t.all.items };
}

impl Transmitters {
    /// No transmitter.
    pub(crate) fn none(alloc: Global) -> Transmitters
        ensures { result ≡ [] }
    {
        Transmitters {
            all: Vec::new(alloc),
            places: BTreeMap::new(alloc),
        }
    }

    /// These transmitters, in their order. The only error is out of memory.
    pub fn from_slice(
        alloc: Global,
        transmitters: &[Transmitter],
    ) -> Result<Transmitters, AllocError>
        ensures { IfOk result (λ all. all ≡ transmitters.now) }
    {
        let mut all = Transmitters::none(alloc);
        for transmitter in transmitters {
            all.push(*transmitter)?;
        }
        Ok(all)
    }

    /// Appends a transmitter. The only error is out of memory, and the list is then as before.
    pub(crate) fn push(&mut self, transmitter: Transmitter) -> Result<(), AllocError>
        ensures ok { OnOk result (self.new ≡ self.old ++ transmitter ∷ []) }
        ensures err { OnErr result (self.new ≡ self.old) }
    {
        let place = self.all.len();
        self.all.push(transmitter)?;
        if self.places.contains_key(&transmitter.address) {
            return Ok(());
        }
        match self.places.insert(transmitter.address, place) {
            Ok(_) => Ok(()),
            Err(_) => {
                self.all.pop();
                Err(AllocError)
            }
        }
    }

    /// How many transmitters there are.
    pub fn len(&self) -> usize
        ensures { result ≡ length self.now }
    {
        self.all.len()
    }

    /// The transmitters, in their order.
    pub fn as_slice(&self) -> &[Transmitter]
        ensures { result.now ≡ self.now }
    {
        self.all.as_slice()
    }

    /// The place in the list of the first transmitter with this address, or `None` exactly where there is none.
    pub fn place(&self, address: u16) -> Option<usize>
        ensures place { result ≡ transmitter_place address self.now }
        ensures within { IfSome result (λ place. place < length self.now) }
    {
        self.places.get(&address).copied()
    }

    /// Whether some transmitter has the address.
    pub(crate) fn has(&self, address: u16) -> bool
        ensures { result ≡ has_address address self.now }
    {
        self.place(address).is_some()
    }
}
