// One exciter.
ghost use Rattle.std.specs.Prelude.{◌≡◌, ◌<◌, ◌%◌, ◌==◌, ◌&&◌, ◌++◌, ◌∷◌, [], ℕ, List, IfOk, IfSome};
ghost use Rattle.std.specs.Prelude.{if◌then◌else◌, option_map};
ghost use Rattle.dtx_ops.specs.Spelling.{IsValid};
ghost use Rattle.dtx_exciter.specs.Told.{is_sent};
ghost use Rattle.dtx_exciter.specs.Step.{bytes_of, own_order, told_group, IsSent, IsSame};
ghost use Rattle.dtx_exciter.specs.Kept.{StandsFor, KeepsUnder, IsTaken, Joins};

use crate::answers::{Told, Why};
use crate::orders::{Corrector, is_flushed, order_in};
use crate::pages::Pages;
use crate::serving::{preset_of, served, told_why};
use crate::tables::Tables;
use dtx_cadence::{Anchor, Seen};
use dtx_coder::{Air, Coder};
use dtx_ops::Ops;
use dtx_packets::Packet;
use dtx_sizes::{FIELD_PACKETS, GROUP_PACKETS, PACKET};
use dtx_trellis::States;
use std::alloc::{AllocError, Global};
use std::rc::Rc;

/// An exciter (the profile's own, over ATSC A/53 Part 2 and in the manner of ATSC A/110). The caller gives it the
/// packets of a feed, from any place of it on, or any other packets. It gives the segments that are to be sent under
/// the orders in them.
#[derive(Drop)]
pub struct Exciter {
    address: u16,
    delay: u32,
    corrector: Rc<Corrector>,
    anchor: Anchor,
    flushed: bool,
    sent: bool,
    pages: Pages,
    packets: [Packet; GROUP_PACKETS],
    coder: Coder,
}

impl Exciter {
    /// A new exciter of the transmitter `address`. The feed takes `delay` ticks of 100 ns to reach it. The only error
    /// is out of memory.
    pub fn new(alloc: Global, address: u16, delay: u32) -> Result<Exciter, AllocError>
        ensures { IfOk result (λ exciter. StandsFor address delay exciter []) }
    {
        Exciter::sharing(alloc, &Tables::new(alloc)?, address, delay)
    }

    /// The same, with tables that other exciters may share. The only error is out of memory.
    pub fn sharing(
        alloc: Global,
        tables: &Tables,
        address: u16,
        delay: u32,
    ) -> Result<Exciter, AllocError>
        ensures { IfOk result (λ exciter. StandsFor address delay exciter []) }
    {
        Ok(Exciter {
            address,
            delay,
            corrector: tables.corrector.clone()?,
            anchor: Anchor::new(),
            flushed: false,
            sent: false,
            pages: Pages::new(0),
            packets: [Packet([0; PACKET]); GROUP_PACKETS],
            coder: Coder::sharing(alloc, &tables.coding)?,
        })
    }

    /// Takes one packet, of any bytes. The answer is `Sent` at the last packet of a group that is sent. `air` then
    /// holds the group's segments: four data segments, and before them a field sync if the group begins a field and the
    /// group before it was sent. After any other answer `air` holds no segment.
    pub fn take(&mut self, packet: &Packet, air: &mut Air) -> Told
        ensures { (address delay : ℕ) (before : List (List ℕ)) → StandsFor address delay self.old before
            → IsTaken address delay (before ++ packet.now.0 ∷ []) self.new result air.new.segments air.new.symbols }
    {
        air.segments = 0;
        match self.anchor.see(packet.sync()) {
            Seen::Free => Told::Quiet,
            Seen::Lost => Told::Muted(Why::Cadence),
            Seen::Start => {
                self.begin(packet);
                Told::Quiet
            }
            Seen::At(place) => self.join(place, packet, air),
        }
    }

    /// Makes the exciter one that was given no packet. Its address and delay stay.
    pub fn reset(&mut self)
        ensures { (address delay : ℕ) (before : List (List ℕ)) → StandsFor address delay self.old before
            → StandsFor address delay self.new [] }
    {
        self.anchor = Anchor::new();
    }

    /// Starts anew with this packet as the anchor.
    fn begin(&mut self, packet: &Packet)
        ensures keeps { KeepsUnder self.old.address self.old.delay self.new (packet.now.0 ∷ []) }
        ensures same { IsSame self.old self.new }
    {
        self.coder.known();
        self.coder.align();
        self.packets[0] = *packet;
        self.flushed = false;
        self.sent = false;
        self.pages = Pages::new(0);
    }

    /// Adds the packet at this place of its frame. The last packet of a group completes the group, and the answer is
    /// the one to the group.
    fn join(&mut self, place: u16, packet: &Packet, air: &mut Air) -> Told
        requires place { place < 624 }
        requires air { air.old.segments ≡ 0 }
        ensures joined { Joins place packet.now.0 self.old self.new result air.new.segments air.new.symbols }
        ensures same { IsSame self.old self.new }
    {
        self.packets[place as usize % GROUP_PACKETS] = *packet;
        if place as usize % GROUP_PACKETS != 3 {
            return Told::Quiet;
        }
        let told = self.send(place - 3, air);
        self.flushed = is_flushed(self.flushed, place);
        told
    }

    /// Answers to the whole group that begins at place `first` of its frame. If the group is sent, `air` holds its
    /// segments.
    fn send(&mut self, first: u16, air: &mut Air) -> Told
        requires place { first < 624 }
        requires whole { first % 4 ≡ 0 }
        ensures { IsSent first self.old self.new result air.new.segments air.new.symbols }
    {
        let order = self.order(first);
        self.pages.see(self.address, &order);
        let told = self.answer(first, &order);
        let sent = is_sent(told);
        let sync = begins_with_sync(first, self.sent, sent);
        let preset = states_of(order);
        self.coder.group(
            first % FIELD_PACKETS,
            first >= FIELD_PACKETS,
            &self.packets,
            preset,
            sync,
            air,
        );
        keep_if(sent, air);
        self.sent = sent;
        told
    }

    /// The order in the group's own packets. There is none until 52 packets, counted from the anchor, stand before the
    /// group.
    fn order(&self, first: u16) -> Option<Ops>
        requires { first < 624 }
        ensures order { result ≡ own_order self.now.flushed first (bytes_of self.now.packets) }
        ensures valid { IfSome result IsValid }
    {
        if self.flushed {
            order_in(&self.corrector, first, &self.packets)
        } else {
            None
        }
    }

    /// The answer to a group, whose own packets hold this order, if any.
    fn answer(&self, first: u16, order: &Option<Ops>) -> Told
        requires place { first < 624 }
        requires valid { IfSome order.now IsValid }
        ensures { result ≡ told_group self.now.delay first order.now self.now.pages self.now.sent }
    {
        match order {
            Some(ops) => match served(self.delay, ops.max_delay, &self.pages) {
                Ok(hold) => Told::Sent {
                    preset: Some(preset_of(ops, &self.pages, first, hold)),
                },
                Err(why) => told_why(why),
            },
            None if self.sent => Told::Sent { preset: None },
            None => Told::Quiet,
        }
    }
}

fn is_sent(told: Told) -> bool
    ensures { result ≡ is_sent told }
{
    match told {
        Told::Sent { .. } => true,
        Told::Quiet | Told::Muted(_) => false,
    }
}

/// Removes the segments of `air` unless the group is sent.
fn keep_if(sent: bool, air: &mut Air)
    ensures count { air.new.segments ≡ (if sent then air.old.segments else 0) }
    ensures symbols { air.new.symbols ≡ air.old.symbols }
{
    if !sent {
        air.segments = 0;
    }
}

/// Whether a field sync stands before the group that begins at place `first` of its frame. `before` says whether the
/// group before it was sent, and `sent` whether this one is.
fn begins_with_sync(first: u16, before: bool, sent: bool) -> bool
    ensures { result ≡ (sent && before && (first % 312 == 0)) }
{
    sent && before && first % FIELD_PACKETS == 0
}

/// The states that an order sets.
fn states_of(order: Option<Ops>) -> Option<States>
    ensures { result ≡ option_map (λ o. o.states) order }
{
    match order {
        Some(ops) => Some(ops.states),
        None => None,
    }
}
