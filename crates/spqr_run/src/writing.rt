// Writing a text to its end.
ghost use Rattle.std.specs.Prelude.{OnOk, OnErr};
ghost use Rattle.std.specs.Io.KnownBytes.{Appends};
ghost use Rattle.spqr_edge.specs.Device.{HasCause};
ghost use Rattle.spqr_run.specs.Front.{AppendsFront};

use spqr_edge::{Failed, Sink};

/// Puts a text until the sink has taken it all. Each put is given all that is left, and none is made after one that
/// failed; then a prefix of the text was written.
pub fn put_text<K: Sink>(sink: &mut K, text: &[u8]) -> Result<(), Failed>
    ensures ok { OnOk result (Appends (K.written sink.old) (K.written sink.new) text.now) }
    ensures err { OnErr result (AppendsFront (K.written sink.old) (K.written sink.new) text.now) }
    ensures cause { HasCause (K.faults sink.old) (K.faults sink.new) result }
{
    let mut rest = text;
    while !rest.is_empty() {
        let taken = sink.put(rest)?;
        rest = rest.split_at(taken).1;
    }
    Ok(())
}
