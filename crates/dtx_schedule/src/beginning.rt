// Beginning the files of the transmitters.
ghost use Rattle.std.specs.Prelude.{List};
ghost use Rattle.dtx_outside.specs.Counts.{HasGone, blame_of_write};
ghost use Rattle.dtx_plan.specs.declared.transmitter.Transmitter.{Transmitter};
ghost use Rattle.dtx_schedule.specs.Played.{IsBegunOf};
ghost use Rattle.dtx_schedule.specs.Playout.{AreNames};

use crate::pair::FileNames;
use dtx_outside::{Shelf, WriteNo};

/// Begins the symbol file and the log of each transmitter, in the plan's order.
pub(crate) fn begin_files<S: Shelf>(shelf: &mut S, names: &[FileNames]) -> Result<(), WriteNo>
    ensures begun { (ts : List Transmitter) → AreNames ts names.now
        → IsBegunOf ts (S.files shelf.old) result (S.files shelf.new) }
    ensures gone { HasGone (S.counts shelf.old) (S.counts shelf.new) (blame_of_write result) }
{
    for its in names {
        shelf.begin(its.symbols.as_str())?;
        shelf.begin(its.log.as_str())?;
    }
    Ok(())
}
