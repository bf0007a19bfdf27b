//! Sends a text to a sink, piece by piece.
ghost use Rattle.std.specs.Prelude.{◌≡◌, ◌+◌, ◌-◌, ◌^◌, ◌<◌, OnOk, OnErr, true};
ghost use Rattle.std.specs.Io.KnownBytes.{Appends};
ghost use Rattle.qh_write.specs.{contract.Pieces.bytes_in, headline.Sinks.AppendsBeginning};

use crate::pieces::Pieces;
use crate::sink::Sink;

/// Not all bytes could be sent.
#[derive(Clone, Copy, Debug, PartialEq, Eq)]
pub struct SendFault;

/// Sends all bytes in their order.
fn send_all<K: Sink>(sink: &mut K, bytes: &[u8]) -> Result<(), SendFault>
    requires { K.count sink.old < 2 ^ 64 - 1 }
    ensures sent { OnOk result (Appends (K.went sink.old) (K.went sink.new) bytes.now) }
    ensures no_failure { OnOk result (K.count sink.new ≡ K.count sink.old) }
    ensures beginning { OnErr result (AppendsBeginning (K.went sink.old) (K.went sink.new) bytes.now) }
    ensures one_failure { OnErr result (K.count sink.new ≡ K.count sink.old + 1) }
{
    let mut sent = 0;
    while sent < bytes.len() {
        match sink.write(&bytes[sent..]) {
            Ok(taken) => sent += taken,
            Err(_) => return Err(SendFault),
        }
    }
    Ok(())
}

/// Sends all bytes in their order and flushes the sink.
///
/// On `SendFault` the sink failed once in this call and was not called again; a prefix of the bytes was sent, perhaps
/// all. No byte is sent twice.
pub fn send<K: Sink>(sink: &mut K, bytes: &[u8]) -> Result<(), SendFault>
    requires { K.count sink.old < 2 ^ 64 - 1 }
    ensures sent { OnOk result (Appends (K.went sink.old) (K.went sink.new) bytes.now) }
    ensures flushed { OnOk result (K.is_flushed sink.new ≡ true) }
    ensures no_failure { OnOk result (K.count sink.new ≡ K.count sink.old) }
    ensures beginning { OnErr result (AppendsBeginning (K.went sink.old) (K.went sink.new) bytes.now) }
    ensures one_failure { OnErr result (K.count sink.new ≡ K.count sink.old + 1) }
{
    send_all(sink, bytes)?;
    sink.flush().map_err(|_| SendFault)
}

/// Sends a text in pieces, and flushes the sink, as [`send`] does for all its bytes in one list.
pub fn send_pieces<K: Sink>(sink: &mut K, text: &Pieces) -> Result<(), SendFault>
    requires { K.count sink.old < 2 ^ 64 - 1 }
    ensures sent { OnOk result (Appends (K.went sink.old) (K.went sink.new) (bytes_in text.now)) }
    ensures flushed { OnOk result (K.is_flushed sink.new ≡ true) }
    ensures no_failure { OnOk result (K.count sink.new ≡ K.count sink.old) }
    ensures beginning { OnErr result (AppendsBeginning (K.went sink.old) (K.went sink.new) (bytes_in text.now)) }
    ensures one_failure { OnErr result (K.count sink.new ≡ K.count sink.old + 1) }
{
    for piece in &text.done {
        send_all(sink, piece)?;
    }
    send_all(sink, &text.last)?;
    sink.flush().map_err(|_| SendFault)
}
