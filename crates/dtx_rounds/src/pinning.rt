//! The symbols of a field, decided under the pins of what is known.

ghost use Rattle.std.specs.Prelude.{◌≡◌, ℕ, ◌<◌, [], length, slice_index_or};
ghost use Rattle.dtx_rounds.specs.Decided.{IsDecided};

use crate::field::Field;
use crate::means::Means;
use crate::pins::put_pins;
use dtx_sizes::{SEGMENT, SEGMENT_ROUNDS};

/// Decides the symbols of a field anew, where more is known of it than before.
pub(crate) fn decide(means: &mut Means, field: &mut Field)
    ensures decided { IsDecided means.old.decoder field.old field.new }
    ensures scale { means.new.decoder ≡ means.old.decoder }
{
    field.moved = 0;
    if field.knows_more {
        field.knows_more = false;
        let count = field.in_groups();
        // The checker follows the loan of a range only where it has both ends.
        let pins = &mut means.pins[0..SEGMENT_ROUNDS * count];
        let decided = &mut field.decided[1..count + 1];
        put_pins(&field.known[..], pins);
        known_long(decided);
        let decision = means
            .decoder
            .field(pins, &field.heard[1..count + 1], decided);
        known_long(decided);
        field.cost = decision.cost;
        field.moved = decision.moved;
        field.written &= field.moved == 0;
    }
}

/// Each segment has 832 symbols.
fn known_long(segments: &[[i8; SEGMENT]])
    ensures { (i : ℕ) → i < length segments.now → length (slice_index_or segments.now i []) ≡ SEGMENT }
{}
