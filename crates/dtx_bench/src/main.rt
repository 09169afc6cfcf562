// Measures how long the parts of the coding take, each with a word of its own: `dtx_bench encode`. Without a word it
// prints what the encoder's work gives.
#![tactic(auto)]

mod certifying;
mod coding;
mod correcting;
mod encoding;
mod groups;
mod mending;
mod sending;
mod spreading;
mod times;
mod whitening;
mod work;

use certifying::print_proves_times;
use coding::print_outer_times;
use correcting::print_correct_times;
use encoding::{print_check, print_encode_times};
use groups::print_trellis_times;
use mending::print_mend_times;
use sending::print_group_times;
use spreading::print_spread_times;
use std::alloc::Global;
use std::rt::Clock;
use std::{env, io};
use whitening::print_whiten_times;

fn main(rt: HostRuntime) -> io::Result<()> {
    match env::args(&rt)?.nth(1) {
        None => print_check(&rt),
        Some(word) => print_times(&rt, rt.alloc(), word.as_str()),
    }
}

fn print_times(rt: &(impl Clock + Print), alloc: Global, word: &str) -> io::Result<()> {
    match word {
        "encode" => print_encode_times(rt),
        "correct" => print_correct_times(rt),
        "whiten" => print_whiten_times(rt, alloc),
        "spread" => print_spread_times(rt, alloc),
        "outer" => print_outer_times(rt, alloc),
        "trellis" => print_trellis_times(rt),
        "group" => print_group_times(rt, alloc),
        "proves" => print_proves_times(rt, alloc),
        "mend" => print_mend_times(rt),
        _ => rt.println(
            "usage: dtx_bench [encode|correct|whiten|spread|outer|trellis|group|proves|mend]",
        ),
    }
}
