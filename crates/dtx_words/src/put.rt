// Printing a line in pieces.
ghost use Rattle.std.specs.Prelude.{◌≡◌};
ghost use Rattle.dtx_outside.specs.Sink.{IsCounted};
ghost use Rattle.dtx_words.specs.Printed.{IsPut, text_of};

use dtx_outside::{Sink, SinkNo};

/// Prints all of the bytes. After an error a prefix of them was printed.
fn put<O: Sink>(out: &mut O, bytes: &[u8]) -> Result<(), SinkNo>
    ensures written { IsPut bytes.now (O.written out.old) result (O.written out.new) }
    ensures gone { IsCounted (O.counts out.old) result (O.counts out.new) }
{
    let mut done = 0;
    while done < bytes.len() {
        let n = out.write(&bytes[done..])?;
        done += n;
    }
    Ok(())
}

/// Prints the pieces, one after another. After an error a prefix of the text was printed.
pub(crate) fn put_all<O: Sink>(out: &mut O, pieces: &[&str]) -> Result<(), SinkNo>
    ensures written { IsPut (text_of pieces.now) (O.written out.old) result (O.written out.new) }
    ensures gone { IsCounted (O.counts out.old) result (O.counts out.new) }
{
    for piece in pieces {
        put(out, piece.as_bytes())?;
    }
    Ok(())
}
