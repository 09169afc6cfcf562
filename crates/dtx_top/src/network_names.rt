// Which name of a network's files comes twice. The names of the files that a network writes differ from each other. So
// only the names of the plan and of the stream can come again, and no list of all names is needed.
ghost use Rattle.std.specs.Prelude.{◌≡◌, ◌<◌, ◌≤◌, ◌^◌, ◌∷◌, ◌++◌, All, [], find, length};
ghost use Rattle.std.specs.Option.{option_map};
ghost use Rattle.dtx_plan.specs.Sound.{IsNet, IsSound};
ghost use Rattle.dtx_schedule.specs.TransmitterFiles.{transmitter_names};
ghost use Rattle.dtx_words.specs.Names.{repeated, feed_name, log_name, symbol_name};
ghost use Rattle.dtx_top.specs.Networks.{network_names, received_names};
ghost use Rattle.dtx_top.specs.NetNames.{is_given};

use crate::net_command::STREAM_NAME;
use arrayvec::ArrayString;
use dtx_plan::{NetPlan, Plan, ReceivePlan, Transmitter};
use dtx_words::{feed_name, log_name, received_name, symbol_name};

/// The first name among those of the network's files that equals an earlier one.
pub(crate) fn repeated_file(
    name: &str,
    plan: &Plan,
    network: &NetPlan,
) -> Option<ArrayString<STREAM_NAME>>
    requires sound { IsSound plan.now }
    requires network { IsNet plan.now.transmitters network.now }
    ensures { option_map (λ name. name.bytes) result ≡ repeated (network_names name.now plan.now network.now) }
{
    let stream = network.stream.as_str();
    let sent = given_again(name, stream, plan.transmitters.as_slice());
    if name == stream {
        Some(kept(stream))
    } else if is_given(name, stream, feed_name()) {
        Some(kept(feed_name()))
    } else {
        sent.or(received_again(name, stream, &network.receive))
    }
}

/// The first name of a transmitter's file that is the plan's or the stream's.
fn given_again(
    plan: &str,
    stream: &str,
    transmitters: &[Transmitter],
) -> Option<ArrayString<STREAM_NAME>>
    ensures name { option_map (λ name. name.bytes) result
        ≡ find (is_given plan.now stream.now) (transmitter_names transmitters.now) }
    ensures small { All (λ t. t.address < 2 ^ 16) transmitters.now }
{
    let mut again = None;
    for transmitter in transmitters {
        again = again.or(own_again(plan, stream, transmitter.address));
    }
    again
}

/// The first of the names of the two files of the transmitter at an address that is the plan's or the stream's.
fn own_again(plan: &str, stream: &str, address: u16) -> Option<ArrayString<STREAM_NAME>>
    ensures name { option_map (λ name. name.bytes) result
        ≡ find (is_given plan.now stream.now) (symbol_name address ∷ log_name address ∷ []) }
    ensures small { address < 2 ^ 16 }
{
    let (symbols, log) = (symbol_name(address), log_name(address));
    if is_given(plan, stream, symbols.as_str()) {
        Some(kept(symbols.as_str()))
    } else if is_given(plan, stream, log.as_str()) {
        Some(kept(log.as_str()))
    } else {
        None
    }
}

/// The name of what is received, where a receiver is asked for and the name is the plan's or the stream's.
fn received_again(
    plan: &str,
    stream: &str,
    receive: &Option<ReceivePlan>,
) -> Option<ArrayString<STREAM_NAME>>
    ensures { option_map (λ name. name.bytes) result
        ≡ find (is_given plan.now stream.now) (received_names receive.now) }
{
    if receive.is_some() && is_given(plan, stream, received_name()) {
        Some(kept(received_name()))
    } else {
        None
    }
}

/// Whether a name is the plan's or the stream's.
fn is_given(plan: &str, stream: &str, name: &str) -> bool
    ensures { result ≡ is_given plan.now stream.now name.now }
{
    plan == name || stream == name
}

/// The name in a text of its own.
fn kept(name: &str) -> ArrayString<STREAM_NAME>
    requires { length name.now ≤ STREAM_NAME }
    ensures { result.bytes ≡ name.now }
{
    let mut kept = ArrayString::new();
    kept.push_str(name);
    kept
}
