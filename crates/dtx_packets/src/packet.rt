// A transport packet of 188 bytes, and the fields of its header.
ghost use Rattle.std.specs.Prelude.{◌≡◌, ◌↔◌, ◌+◌, ◌%◌, IsTrue};
ghost use Rattle.dtx_packets.specs.Packets.{sync_of, pid_of, HasError, counter_of, with_error};

use dtx_sizes::PACKET;

/// A transport packet (ISO/IEC 13818-1, 2.4.3.2).
#[derive(Clone, Copy, Debug, PartialEq, Eq)]
pub struct Packet(pub [u8; PACKET]);

impl Packet {
    /// The sync byte.
    pub fn sync(&self) -> u8
        ensures { result ≡ sync_of self.now.0 }
    {
        self.0[0]
    }

    /// The packet identifier, of 13 bits.
    pub fn pid(&self) -> u16
        ensures { result ≡ pid_of self.now.0 }
    {
        u16::from_be_bytes([self.0[1] & 0x1F, self.0[2]])
    }

    /// The transport error indicator.
    pub fn error(&self) -> bool
        ensures { IsTrue result ↔ HasError self.now.0 }
    {
        self.0[1] & 0x80 != 0
    }

    /// The continuity counter, of 4 bits.
    pub fn counter(&self) -> u8
        ensures { result ≡ counter_of self.now.0 }
    {
        self.0[3] & 0x0F
    }

    /// Sets the transport error indicator, and changes nothing else.
    pub fn flag_error(&mut self)
        ensures { self.new.0 ≡ with_error self.old.0 }
    {
        self.0[1] = with_bit_7(self.0[1]);
    }
}

/// The byte with its highest bit set.
fn with_bit_7(byte: u8) -> u8
    ensures { result ≡ 128 + byte % 128 }
{
    byte | 0x80
}
