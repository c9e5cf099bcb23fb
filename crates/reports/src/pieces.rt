//! Texts that are written one after the other.

ghost use Rattle.std.specs.List.{flat_map};
ghost use Rattle.rt_base.specs.Outside.{IsWritten};

use rt_base::{Sink, SinkFault, write_all};

/// Writes the pieces one after the other: all of their bytes, or at SinkFault, which comes only where the sink's count of
/// faults rose, a prefix of them.
pub(crate) fn write_pieces<S: Sink>(pieces: &[&str], out: &mut S) -> Result<(), SinkFault>
    ensures { IsWritten (flat_map (λ piece. piece.now) pieces.now) result (S.state out.old) (S.state out.new) }
{
    for piece in pieces {
        write_all(out, piece.as_bytes())?;
    }
    Ok(())
}
