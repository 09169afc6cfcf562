//! Laws of what the commands make, and of the files that they read and write. Packets that were written one behind
//! another are read back from their file, and so is a feed. The packets of a file have 188 bytes.

pub mod dvb_streams;
pub mod placing;

ghost use Rattle.std.specs.Prelude.{◌≡◌, ℕ, List, All, length};
ghost use Rattle.dtx_adapter.specs.Feed.{feed};
ghost use Rattle.dtx_packets.specs.Packets.{packets_of, whole_packets};
ghost use Rattle.dtx_plan.specs.Sound.{IsSound};
ghost use Rattle.dtx_plan.specs.declared.plan.Plan.{Plan};
ghost use Rattle.dtx_recipes.specs.Adapt.{bytes_of_packets, feed_bytes};

use dtx_sizes::PACKET;

/// The packets of a file have 188 bytes each, and there are as many as the file has whole ones.
pub fn packets_of_files()
    ensures long { (file : List ℕ) → All (λ packet. length packet ≡ PACKET) (packets_of file) }
    ensures count { (file : List ℕ) → length (packets_of file) ≡ whole_packets file }
{}

/// Packets of 188 bytes each are read back from the file of their bytes.
pub fn packets_read_back()
    ensures packets { (packets : List (List ℕ)) → All (λ packet. length packet ≡ PACKET) packets
        → packets_of (bytes_of_packets packets) ≡ packets }
    ensures count { (packets : List (List ℕ)) → All (λ packet. length packet ≡ PACKET) packets
        → whole_packets (bytes_of_packets packets) ≡ length packets }
{}

/// Let a stream's packets have 188 bytes each. Its feed under a sound plan is read back from the file of the feed.
pub fn feed_read_back()
    ensures packets { (plan : Plan) (stream : List (List ℕ)) → IsSound plan
        → All (λ packet. length packet ≡ PACKET) stream
        → packets_of (feed_bytes plan stream) ≡ feed plan stream }
    ensures count { (plan : Plan) (stream : List (List ℕ)) → IsSound plan
        → All (λ packet. length packet ≡ PACKET) stream
        → whole_packets (feed_bytes plan stream) ≡ length stream }
{}
