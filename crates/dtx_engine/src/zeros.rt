// Writes what an engine has made: its zeros, and the bytes that it lends.
ghost use Rattle.std.specs.Prelude.{◌≡◌, ◌≢◌, [], Option, IfErr, IsOk, replicate};
ghost use Rattle.dtx_outside.specs.Counts.{HasGone};
ghost use Rattle.dtx_outside.specs.Shelf.{Files};
ghost use Rattle.dtx_meaning.specs.Status.{blame_of_answer};
ghost use Rattle.dtx_meaning.specs.declared.status.Status.TheVariants.{ReadFault};
ghost use Rattle.dtx_engine.specs.Made.{Made, joined, only};
ghost use Rattle.dtx_engine.specs.Outlet.{IsFaultAlone, IsPut};

use crate::{Engine, Outlet};
use dtx_meaning::Status;
use dtx_outside::Shelf;

/// How many zeros are written at once.
const ZEROS: usize = 4096;

/// Writes what the engine's last call has made. `bytes` is the buffer that the call was lent.
pub(crate) fn write_made<E: Engine, W: Outlet, S: Shelf>(
    engine: &E,
    bytes: &[u8],
    outlet: &mut W,
    shelf: &mut S,
) -> Result<(), Status>
    ensures written { (start : Option Files) (given : Made) → W.gathered outlet.old start given (S.files shelf.old)
        → IsPut (W.names outlet.old) start (joined given (E.gives engine.now bytes.now)) result
        (W.gathered outlet.new) (S.files shelf.new) }
    ensures kept { W.names outlet.new ≡ W.names outlet.old }
    ensures fault { IsFaultAlone result }
    ensures gone { HasGone (S.counts shelf.old) (S.counts shelf.new) (blame_of_answer result) }
    ensures nothing { (E.gives engine.now bytes.now).first ≡ [] → (E.gives engine.now bytes.now).second ≡ []
        → IsOk result }
    ensures writes { IfErr result (λ status. status ≢ ReadFault) }
{
    let made = engine.made(bytes);
    match write_zeros(engine.zeros(), outlet, shelf) {
        Ok(()) => outlet.write(shelf, made, engine.log()),
        Err(status) => Err(status),
    }
}

/// Writes `count` zeros to the first output. For none it makes no call of the outputs.
fn write_zeros<W: Outlet, S: Shelf>(count: u64, outlet: &mut W, shelf: &mut S) -> Result<(), Status>
    ensures written { (start : Option Files) (given : Made) → W.gathered outlet.old start given (S.files shelf.old)
        → IsPut (W.names outlet.old) start (joined given (only (replicate count 0))) result (W.gathered outlet.new)
        (S.files shelf.new) }
    ensures kept { W.names outlet.new ≡ W.names outlet.old }
    ensures fault { IsFaultAlone result }
    ensures gone { HasGone (S.counts shelf.old) (S.counts shelf.new) (blame_of_answer result) }
    ensures nothing { count ≡ 0 → IsOk result }
    ensures writes { IfErr result (λ status. status ≢ ReadFault) }
{
    let zeros = [0; ZEROS];
    let mut left = count;
    while left > 0 {
        let some = left.min(ZEROS as u64);
        match outlet.write(shelf, &zeros[..some as usize], &[]) {
            Ok(()) => left -= some,
            Err(status) => return Err(status),
        }
    }
    Ok(())
}
