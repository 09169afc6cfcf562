// The keys of a plan.
ghost use Rattle.std.specs.Prelude.{◌≡◌};
ghost use Rattle.dtx_plan.specs.Words.{key_word};

/// The words of the keys, in their order.
static WORDS: [&str; 24] = [
    "whole",
    "start",
    "max_delay",
    "transmitter",
    "address",
    "offset",
    "delay",
    "net",
    "stream",
    "event",
    "do",
    "to",
    "seed",
    "from",
    "count",
    "at",
    "with",
    "states",
    "receive",
    "receive.from",
    "damage",
    "damage.at",
    "damage.count",
    "damage.put",
];

/// The key that a refusal of a plan names. Plan files are the profile's own.
#[derive(Clone, Copy, PartialEq, Eq)]
pub enum PlanKey {
    /// The file, or the keys of its root.
    Whole,
    /// The tick at which the feed starts.
    Start,
    /// The maximum delay of the network.
    MaxDelay,
    /// The array of transmitters, or one of them.
    Transmitter,
    /// The address of a transmitter.
    Address,
    /// The offset of a transmitter.
    Offset,
    /// The delay of the feed on its way to a transmitter.
    Delay,
    /// The table `net`.
    Net,
    /// The name of the stream.
    Stream,
    /// The array of events, or one of them.
    Event,
    /// What an event does.
    Do,
    /// The transmitter of an event.
    To,
    /// The seed of foreign packets.
    Seed,
    /// The first packet of an event.
    From,
    /// The number of packets of an event.
    Count,
    /// The byte that is flipped.
    At,
    /// What the byte is flipped with.
    With,
    /// The states that a packet lies about.
    States,
    /// The table of the receiver.
    Receive,
    /// The transmitter that is received.
    ReceiveFrom,
    /// The array of damage, or one of its entries.
    Damage,
    /// The first byte that is damaged.
    DamageAt,
    /// The number of bytes that are damaged.
    DamageCount,
    /// What stands in their place.
    DamagePut,
}

impl PlanKey {
    /// How the line of a refusal names the key.
    pub fn word(&self) -> &'static str
        ensures { result.now ≡ key_word self.now }
    {
        WORDS[*self as usize]
    }
}
