// The rules of a plan.
ghost use Rattle.std.specs.Prelude.{◌≡◌};
ghost use Rattle.dtx_plan.specs.Words.{rule_word};

/// The words of the rules, in their order.
static WORDS: [&str; 9] = [
    "size", "text", "unknown", "missing", "kind", "range", "twice", "stranger", "order",
];

/// A rule that a plan breaks. Plan files are the profile's own.
#[derive(Clone, Copy, PartialEq, Eq)]
pub enum PlanRule {
    /// The file has more than 16,777,216 bytes.
    Size,
    /// The file isn't a TOML text.
    Text,
    /// A table has a key that is not listed for it.
    Unknown,
    /// A key is missing.
    Missing,
    /// A value doesn't have the TOML type that its key needs.
    Kind,
    /// A number, a count of entries or a text is out of its range.
    Range,
    /// An earlier transmitter has the address.
    Twice,
    /// No transmitter has the address.
    Stranger,
    /// An entry of damage begins before the end of the entry before it.
    Order,
}

impl PlanRule {
    /// How the line of a refusal names the rule.
    pub fn word(&self) -> &'static str
        ensures { result.now ≡ rule_word self.now }
    {
        WORDS[*self as usize]
    }
}
