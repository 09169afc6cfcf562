//! The outer decoding of a run's packets.

ghost use Rattle.std.specs.Prelude.{◌≡◌, ℕ, ◌+◌, ◌*◌, ◌%◌, ◌<◌, ◌≤◌, ◌++◌, [], List, IfOk, length};
ghost use Rattle.dtx_outer.specs.Inner.{StandsFor};
ghost use Rattle.dtx_whiten.specs.Randomizer.{randomizer_bytes};
ghost use Rattle.dtx_receiver.specs.Handed.{handed};
ghost use Rattle.dtx_receiver.specs.Packets.{early_of};
ghost use Rattle.dtx_receiver.specs.declared.batch.Received.{Received};

use crate::batch::{Batch, HELD_GROUPS, MOST_RECEIVED, Received};
use dtx_fast::Fast;
use dtx_outer::{Inner, Taken};
use dtx_sizes::{BRANCH_STEP, BRANCHES, CODEWORD, GROUP_BYTES, PACKET_DATA};
use dtx_spread::Collect;
use dtx_whiten::Atsc;
use std::alloc::{AllocError, Global};
use std::rc::Rc;

/// The de-interleaver, the Reed-Solomon corrector and the randomizer of the standard. The corrector's tables take 45
/// kB. An `Rc` holds the corrector, so that a move of this value doesn't copy the tables.
pub(crate) type OuterDecoding = Inner<
    Atsc,
    Rc<Fast<CODEWORD, PACKET_DATA>>,
    Collect<BRANCHES, BRANCH_STEP>,
    CODEWORD,
    PACKET_DATA,
    BRANCHES,
    BRANCH_STEP,
>;

/// The outer decoding at the start of a run. The only error is out of memory.
pub(crate) fn new_outer_decoding(alloc: Global) -> Result<OuterDecoding, AllocError>
    ensures white { IfOk result (λ inner. inner.white ≡ randomizer_bytes) }
    ensures stands { IfOk result (λ inner. StandsFor CODEWORD PACKET_DATA BRANCHES BRANCH_STEP inner []) }
{
    Ok(Inner::new(
        Atsc::new(alloc)?,
        Rc::new(alloc, Fast::new())?,
        Collect::new(alloc)?,
    ))
}

/// Takes the next block of a run's bytes. If it completes a packet, the batch gets it.
pub(crate) fn give(inner: &mut OuterDecoding, block: &[u8; CODEWORD], batch: &mut Batch)
    requires white { inner.old.white ≡ randomizer_bytes }
    requires room { length batch.old.packets.items < MOST_RECEIVED }
    ensures white { inner.new.white ≡ randomizer_bytes }
    ensures stands { (before : List ℕ) → StandsFor CODEWORD PACKET_DATA BRANCHES BRANCH_STEP inner.old before
        → StandsFor CODEWORD PACKET_DATA BRANCHES BRANCH_STEP inner.new (before ++ block.now) }
    ensures packets { (before : List ℕ) (given : List Received)
        → StandsFor CODEWORD PACKET_DATA BRANCHES BRANCH_STEP inner.old before
        → early_of before ≡ given ++ batch.old.packets.items
        → early_of (before ++ block.now) ≡ given ++ batch.new.packets.items }
    ensures few { length batch.new.packets.items ≤ length batch.old.packets.items + 1 }
{
    let mut head = [0; PACKET_DATA];
    let taken = inner.take(block, &mut head);
    hand(taken, &head, batch);
}

/// Takes the next groups of a run's bytes, four blocks each. The batch gets the packets that they complete. All groups
/// pass the de-interleaver together, which overwrites `bytes`. The large arrays are made only for two groups or more,
/// since making them takes time.
pub(crate) fn give_groups(inner: &mut OuterDecoding, bytes: &mut [u8], batch: &mut Batch)
    requires white { inner.old.white ≡ randomizer_bytes }
    requires whole { length bytes.old % GROUP_BYTES ≡ 0 }
    requires most { length bytes.old ≤ GROUP_BYTES * HELD_GROUPS }
    requires none { batch.old.packets.items ≡ [] }
    ensures white { inner.new.white ≡ randomizer_bytes }
    ensures stands { (before : List ℕ) → StandsFor CODEWORD PACKET_DATA BRANCHES BRANCH_STEP inner.old before
        → StandsFor CODEWORD PACKET_DATA BRANCHES BRANCH_STEP inner.new (before ++ bytes.old) }
    ensures packets { (before : List ℕ) (given : List Received)
        → StandsFor CODEWORD PACKET_DATA BRANCHES BRANCH_STEP inner.old before
        → early_of before ≡ given ++ batch.old.packets.items
        → early_of (before ++ bytes.old) ≡ given ++ batch.new.packets.items }
    ensures few { CODEWORD * length batch.new.packets.items ≤ length bytes.old }
{
    let groups = bytes.len() / GROUP_BYTES;
    if groups <= 1 {
        let mut heads = [[[0; PACKET_DATA]; 4]; 1];
        let mut taken = [[Taken::None; 4]; 1];
        return give_through(
            inner,
            bytes,
            &mut heads[..groups],
            &mut taken[..groups],
            batch,
        );
    }
    let mut heads = [[[0; PACKET_DATA]; 4]; HELD_GROUPS];
    let mut taken = [[Taken::None; 4]; HELD_GROUPS];
    give_through(
        inner,
        bytes,
        &mut heads[..groups],
        &mut taken[..groups],
        batch,
    );
}

/// Does the work of `give_groups`. The caller lends the room for what each block gives: data in `heads`, answers in
/// `taken`.
fn give_through(
    inner: &mut OuterDecoding,
    bytes: &mut [u8],
    heads: &mut [[[u8; PACKET_DATA]; 4]],
    taken: &mut [[Taken; 4]],
    batch: &mut Batch,
)
    requires white { inner.old.white ≡ randomizer_bytes }
    requires heads { length bytes.old ≡ GROUP_BYTES * length heads.old }
    requires taken { length taken.old ≡ length heads.old }
    requires most { length heads.old ≤ HELD_GROUPS }
    requires none { batch.old.packets.items ≡ [] }
    ensures white { inner.new.white ≡ randomizer_bytes }
    ensures stands { (before : List ℕ) → StandsFor CODEWORD PACKET_DATA BRANCHES BRANCH_STEP inner.old before
        → StandsFor CODEWORD PACKET_DATA BRANCHES BRANCH_STEP inner.new (before ++ bytes.old) }
    ensures packets { (before : List ℕ) (given : List Received)
        → StandsFor CODEWORD PACKET_DATA BRANCHES BRANCH_STEP inner.old before
        → early_of before ≡ given ++ batch.old.packets.items
        → early_of (before ++ bytes.old) ≡ given ++ batch.new.packets.items }
    ensures few { CODEWORD * length batch.new.packets.items ≤ length bytes.old }
{
    inner.take_fours(bytes, heads, taken);
    for p in 0..4 * heads.len() {
        hand(taken[p / 4][p % 4], &heads[p / 4][p % 4], batch);
    }
}

/// Adds what a block gave to the packets of the batch.
fn hand(taken: Taken, head: &[u8; PACKET_DATA], batch: &mut Batch)
    requires { length batch.old.packets.items < MOST_RECEIVED }
    ensures packets { batch.new.packets.items ≡ batch.old.packets.items ++ handed taken head.now }
    ensures few { length batch.new.packets.items ≤ length batch.old.packets.items + 1 }
{
    match taken {
        Taken::None => {}
        Taken::Good { fixed } => batch.packets.push(Received::corrected(head, fixed)),
        Taken::Bad => batch.packets.push(Received::as_gathered(head)),
    }
}
