// Twelve states in five bytes.
ghost use Rattle.std.specs.Prelude.{◌≡◌, ◌+◌, ◌*◌, ◌^◌, ◌<◌, ◌≤◌, EachIndex, length, slice_index};
ghost use Rattle.std.specs.List.{fold};
ghost use Rattle.dtx_ops.specs.Fields.{states_at};
ghost use Rattle.dtx_ops.specs.Spelling.{states_bits};

use dtx_trellis::States;

/// The states as a number of forty bits: three bits each, coder 0 highest, and then four 0 bits.
#[tactic(auto, unfolding(crate::specs::Spelling::states_bits))]
pub(crate) fn packed(states: States) -> u64
    ensures value { result ≡ states_bits states }
    ensures within { result < 2 ^ 40 }
    ensures twelve { length states ≡ 12 }
    ensures small { EachIndex states (λ e. slice_index states e < 8) }
{
    let numbers = states.0;
    16 * joined(&numbers)
}

/// The numbers of three bits as one number, the first one highest.
fn joined(numbers: &[u8]) -> u64
    requires many { length numbers.now ≤ 12 }
    requires small { EachIndex numbers.now (λ e. slice_index numbers.now e < 8) }
    ensures value { result ≡ fold (λ before state. 8 * before + state) 0 numbers.now }
    ensures within { result < 2 ^ 36 }
{
    let mut bits: u64 = 0;
    for state in numbers {
        bits = 8 * bits + *state as u64;
    }
    bits
}

/// The states in a number of forty bits, coder 0 highest.
#[tactic(auto, unfolding(crate::specs::Fields::states_at))]
pub(crate) fn unpacked(bits: u64) -> States
    requires { bits < 2 ^ 40 }
    ensures { result ≡ states_at bits }
{
    let mut numbers = [0; 12];
    for e in 0..12 {
        numbers[e] = ((bits >> (37 - 3 * e)) % 8) as u8;
    }
    States(numbers)
}
