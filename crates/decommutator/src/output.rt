//! Octets on their way to a sink.
ghost use Rattle.std.specs.Prelude.{◌≡◌, [], OnOk};
ghost use Rattle.decommutator.specs.Output.{Proceeds, as_seen};

use hk_base::Sink;
use session_record::{WriteFault, write_all};

/// So many octets are gathered before they are written, so that no line costs a call of the sink.
const PIECE: usize = 65_536;

/// Writes what was gathered, where it is a piece.
pub(crate) fn write_piece<K: Sink>(sink: &mut K, out: &mut Vec<u8>) -> Result<(), WriteFault>
    ensures { Proceeds out.old.items (as_seen K.Sink sink.old) result out.new.items (as_seen K.Sink sink.new) }
{
    if out.len() < PIECE {
        return Ok(());
    }
    write_gathered(sink, out)
}

/// Writes what was gathered.
pub(crate) fn write_gathered<K: Sink>(sink: &mut K, out: &mut Vec<u8>) -> Result<(), WriteFault>
    ensures proceeds { Proceeds out.old.items (as_seen K.Sink sink.old) result [] (as_seen K.Sink sink.new) }
    ensures empty { OnOk result (out.new.items ≡ []) }
{
    write_all(sink, out.as_slice())?;
    out.clear();
    Ok(())
}
