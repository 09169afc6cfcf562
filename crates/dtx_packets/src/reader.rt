// The packets of a file, one after another or many at a time.
ghost use Rattle.std.specs.Prelude.{◌≡◌, ◌≤◌, ◌<◌, ◌+◌, ◌-◌, ◌*◌, ◌/◌, length, drop, max};
ghost use Rattle.std.specs.Prelude.{IfOk, IfSome, IsErrOf, OnErr, Ok, None};
ghost use Rattle.std.specs.FinMap as map;
ghost use Rattle.dtx_outside.specs.Counts.{HasGone};
ghost use Rattle.dtx_packets.specs.Packets.{most_packets};
ghost use Rattle.dtx_packets.specs.Refusal.{blame_of_next};

use crate::cutting::cut;
use crate::packet::Packet;
use crate::refusal::NextNo;
use dtx_outside::{Shelf, fill};
use dtx_sizes::{MOST_PACKETS, PACKET};
use std::marker::Model;

/// How many packets are read at once at most: as many as fit 64 KiB.
///
/// Each read of a host's file opens and closes it, which costs as much as coding many packets.
pub const PIECE_PACKETS: usize = 348;

// The bytes of as many packets.
const PIECE: usize = PIECE_PACKETS * PACKET;

/// Reads the packets of a file from packet `first` on, and gives at most `limit` of them.
///
/// The caller names the file in each call. After an error the reader is as before.
#[derive(Drop)]
pub struct PacketReader {
    first: u64,
    limit: u64,
    given: u64,
    loose: u8,
}

impl Model for PacketReader {
    ghost use Rattle.std.specs.Prelude.{◌≤◌, ◌<◌};
    ghost use Rattle.dtx_packets.specs.Reading.{Reading};
    ghost use Rattle.dtx_sizes.specs.declared.packets.TheConstants.{PACKET};
    ghost use Rattle.dtx_sizes.specs.declared.limits.TheConstants.{MOST_PACKETS};

    ghost Value = { Reading };

    ghost view = { λ r. record { first = r.first; limit = r.limit; given = r.given; loose = r.loose } };

    ghost invariant = { λ r. (r.first ≤ MOST_PACKETS) × (r.limit ≤ MOST_PACKETS)
        × (r.given ≤ r.limit) × (r.loose < PACKET) };
}

impl PacketReader {
    ghost use Rattle.dtx_packets.specs.Reading.{IsNext, AreNext, IsAdvance, IsLeft, IsPlaced, IsStep};

    /// A reader from the first packet on, which gives at most `limit` packets.
    pub fn new(limit: u64) -> PacketReader
        requires { limit ≤ most_packets }
        ensures { result ≡ record { first = 0; limit = limit; given = 0; loose = 0 } }
    {
        PacketReader::at(0, limit)
    }

    /// A reader from packet `first` on, which gives at most `limit` packets.
    pub fn at(first: u64, limit: u64) -> PacketReader
        requires first { first ≤ most_packets }
        requires limit { limit ≤ most_packets }
        ensures { result ≡ record { first = first; limit = limit; given = 0; loose = 0 } }
    {
        PacketReader {
            first,
            limit,
            given: 0,
            loose: 0,
        }
    }

    /// How many bytes follow the last whole packet. It is 0 until the end of the file was met. It is 0 again when the
    /// file has grown and a further packet is given.
    pub fn loose(&self) -> u8
        ensures { result ≡ self.now.loose }
    {
        self.loose
    }

    /// The next whole packet, or `None` where fewer than 188 bytes are left.
    ///
    /// The error is `TooLong` where `limit` packets were given and the file has another whole one. The other errors are
    /// those of the shelf.
    pub fn next<S: Shelf>(&mut self, shelf: &mut S, name: &str) -> Result<Option<Packet>, NextNo>
        ensures told { IfSome (S.files shelf.old) (λ held. IsNext (map.get held name.now) self.old result self.new) }

        // The reader after the call, also where the shelf doesn't tell its files.
        ensures packet { IfOk result (λ next. IfSome next (λ _.
            (self.old.given < self.old.limit)
            × (self.new ≡ record self.old { given = self.old.given + 1; loose = 0 }))) }
        ensures end { result ≡ Ok None → (self.new.loose < PACKET)
            × (self.new ≡ record self.old { loose = self.new.loose }) }
        ensures err { OnErr result (self.new ≡ self.old) }

        // What an error comes from.
        ensures too_long { IsErrOf result NextNo.TooLong → self.old.given ≡ self.old.limit }
        ensures gone { HasGone (S.counts shelf.old) (S.counts shelf.new) (blame_of_next result) }
        ensures kept { S.files shelf.new ≡ S.files shelf.old }
    {
        let mut bytes = [0u8; PACKET];
        match self.advance(shelf, name, &mut bytes) {
            Ok(0) => Ok(None),
            Ok(_) => Ok(Some(Packet(bytes))),
            Err(no) => Err(no),
        }
    }

    /// Reads the next whole packets at once to the front of `into`, and answers their number: as many as fit, as the
    /// limit still allows and as are left. It is 0 where fewer than 188 bytes are left.
    ///
    /// The errors are those of `next`. After 0 or an error `into` is as before.
    pub fn next_many<S: Shelf>(
        &mut self,
        shelf: &mut S,
        name: &str,
        into: &mut [Packet],
    ) -> Result<usize, NextNo>
        requires some { 0 < length into.old }
        requires fits { length into.old ≤ PIECE_PACKETS }
        ensures told { IfSome (S.files shelf.old) (λ held.
            AreNext (map.get held name.now) self.old result into.new self.new) }

        // The reader and `into` after the call, also where the shelf doesn't tell its files.
        ensures count { IfOk result (λ n. n ≤ length into.new) }
        ensures rest { IfOk result (λ n. drop n into.new ≡ drop n into.old) }
        ensures packets { IfOk result (λ n. 0 < n →
            (self.old.given + n ≤ self.old.limit)
            × (self.new ≡ record self.old { given = self.old.given + n; loose = 0 })) }
        ensures end { result ≡ Ok 0 → (self.new.loose < PACKET)
            × (self.new ≡ record self.old { loose = self.new.loose }) }
        ensures err { OnErr result (self.new ≡ self.old) }
        ensures err_rest { OnErr result (into.new ≡ into.old) }

        // What an error comes from.
        ensures too_long { IsErrOf result NextNo.TooLong → self.old.given ≡ self.old.limit }
        ensures gone { HasGone (S.counts shelf.old) (S.counts shelf.new) (blame_of_next result) }
        ensures kept { S.files shelf.new ≡ S.files shelf.old }
    {
        let mut bytes = [0u8; PIECE];
        let room = into.len() * PACKET;
        self.next_through(shelf, name, &mut bytes[..room], into)
    }

    /// Does what `next_many` does. The buffer `bytes` has room for as many packets as `into`.
    fn next_through<S: Shelf>(
        &mut self,
        shelf: &mut S,
        name: &str,
        bytes: &mut [u8],
        into: &mut [Packet],
    ) -> Result<usize, NextNo>
        requires some { 0 < length into.old }
        requires fits { length into.old ≤ PIECE_PACKETS }
        requires room { length bytes.old ≡ length into.old * PACKET }
        ensures told { IfSome (S.files shelf.old) (λ held.
            AreNext (map.get held name.now) self.old result into.new self.new) }
        ensures left { IsLeft self.old (length into.new) result self.new }
        ensures places { IsPlaced result into.old into.new }
        ensures gone { HasGone (S.counts shelf.old) (S.counts shelf.new) (blame_of_next result) }
        ensures kept { S.files shelf.new ≡ S.files shelf.old }
    {
        match self.advance(shelf, name, bytes) {
            Ok(count) => {
                cut(&bytes[..count * PACKET], into);
                Ok(count)
            }
            Err(no) => Err(no),
        }
    }

    /// Reads the bytes of the next whole packets to the front of the buffer, and answers how many packets they are.
    fn advance<S: Shelf>(
        &mut self,
        shelf: &mut S,
        name: &str,
        bytes: &mut [u8],
    ) -> Result<usize, NextNo>
        requires some { PACKET ≤ length bytes.old }
        requires fits { length bytes.old ≤ PIECE }
        ensures told { IfSome (S.files shelf.old) (λ held.
            IsAdvance (map.get held name.now) self.old result bytes.new self.new) }
        ensures left { IsLeft self.old (length bytes.new / PACKET) result self.new }
        ensures gone { HasGone (S.counts shelf.old) (S.counts shelf.new) (blame_of_next result) }
        ensures kept { S.files shelf.new ≡ S.files shelf.old }
    {
        // At the limit one more packet is read, which shows whether the file is longer.
        let wanted = (bytes.len() / PACKET).min(self.left().max(1) as usize);
        let place = (self.first + self.given) * PACKET as u64;
        match fill(shelf, name, place, &mut bytes[..wanted * PACKET]) {
            Ok(filled) => self.step_over(filled),
            Err(no) => Err(NextNo::from(no)),
        }
    }

    /// How many packets the limit still allows.
    fn left(&self) -> u64
        ensures { result ≡ self.now.limit - self.now.given }
    {
        self.limit - self.given
    }

    /// Advances past the whole packets of `filled` bytes, and answers their number. The error is `TooLong`.
    fn step_over(&mut self, filled: usize) -> Result<usize, NextNo>
        requires { filled / PACKET ≤ max 1 (self.old.limit - self.old.given) }
        ensures { IsStep self.old filled result self.new }
    {
        let count = filled / PACKET;
        if count == 0 {
            self.loose = filled as u8;
            return Ok(0);
        }
        if self.left() == 0 {
            return Err(NextNo::TooLong);
        }
        self.given += count as u64;
        self.loose = 0;
        Ok(count)
    }
}
