// The names of the files that a network writes, and of the file of a trial's stream.
ghost use Rattle.std.specs.Prelude.{◌≡◌, ◌≢◌, ◌<◌, ◌≤◌, ◌^◌, ◌++◌, ℕ, length, codes, decimal};
ghost use Rattle.dtx_words.specs.Names.{feed_name, log_name, received_name, symbol_name, trial_name};

use arrayvec::ArrayString;
use itoa::Buffer;

/// How many bytes the longest name with an address has, as `tx-65535.sym`.
pub const NETWORK_NAME: usize = 12;

/// The name of the feed's file.
pub fn feed_name() -> &'static str
    ensures { result.now ≡ feed_name }
{
    "net.feed"
}

/// The name of the file of a trial's stream.
pub fn trial_name() -> &'static str
    ensures { result.now ≡ trial_name }
{
    "trial.ts"
}

/// The name of the file of the received packets.
pub fn received_name() -> &'static str
    ensures { result.now ≡ received_name }
{
    "net.ts"
}

/// The name of the symbol file of the transmitter with that address.
pub fn symbol_name(address: u16) -> ArrayString<NETWORK_NAME>
    ensures { result.bytes ≡ symbol_name address }
{
    transmitter_name(address, ".sym")
}

/// The name of the log file of the transmitter with that address.
pub fn log_name(address: u16) -> ArrayString<NETWORK_NAME>
    ensures { result.bytes ≡ log_name address }
{
    transmitter_name(address, ".log")
}

/// The name of a file of the transmitter with that address.
fn transmitter_name(address: u16, ending: &str) -> ArrayString<NETWORK_NAME>
    requires { length ending.now ≤ 4 }
    ensures { result.bytes ≡ codes "tx-" ++ (decimal address ++ ending.now) }
{
    let mut number = Buffer::new();
    let mut name = ArrayString::new();
    name.push_str("tx-");
    name.push_str(number.format(address));
    name.push_str(ending);
    name
}

/// No two files of a network have one name.
pub fn names_differ()
    ensures symbols { (first second : ℕ) → first < 2 ^ 16 → second < 2 ^ 16 → symbol_name first ≡ symbol_name second
        → first ≡ second }
    ensures logs { (first second : ℕ) → first < 2 ^ 16 → second < 2 ^ 16 → log_name first ≡ log_name second
        → first ≡ second }
    ensures symbols_no_logs { (first second : ℕ) → symbol_name first ≢ log_name second }
    ensures symbols_no_feed { (address : ℕ) → symbol_name address ≢ feed_name }
    ensures symbols_not_received { (address : ℕ) → symbol_name address ≢ received_name }
    ensures logs_no_feed { (address : ℕ) → log_name address ≢ feed_name }
    ensures logs_not_received { (address : ℕ) → log_name address ≢ received_name }
    ensures feed_not_received { feed_name ≢ received_name }
{}
