//! Whole writes over calls that may take less: they go on until all is written or a fault comes.
//! They know nothing of what the bytes mean.
ghost use Rattle.std.specs.Prelude.{◌≡◌, OnOk, OnErr};
ghost use Rattle.std.specs.List.{flat_map};
ghost use Rattle.aplc_io.specs.Outside.{sink_with, text_with};
ghost use Rattle.aplc_io.specs.Parts.{PartWritten, PartOfText};

use crate::{Failed, Host, Sink};

/// Writes all of the bytes to a sink. After `Failed` some of them from the front were written, and not all.
pub fn write_all<K: Sink>(sink: &mut K, bytes: &[u8]) -> Result<(), Failed>
    ensures whole { OnOk result (K.state sink.new ≡ sink_with (K.state sink.old) bytes.now) }
    ensures part { OnErr result (PartWritten bytes.now (K.state sink.old) (K.state sink.new)) }
{
    let mut at = 0;
    while at < bytes.len() {
        at += sink.write(&bytes[at..])?;
    }
    Ok(())
}

/// Writes the pieces to a sink, one after the other, as `write_all` would write them joined.
pub fn write_pieces<K: Sink>(sink: &mut K, pieces: &[&[u8]]) -> Result<(), Failed>
    ensures whole { OnOk result
        (K.state sink.new ≡ sink_with (K.state sink.old) (flat_map (λ p. p.now) pieces.now)) }
    ensures part { OnErr result
        (PartWritten (flat_map (λ p. p.now) pieces.now) (K.state sink.old) (K.state sink.new)) }
{
    for piece in pieces {
        match write_all(sink, piece) {
            Ok(()) => {}
            Err(Failed) => return Err(Failed),
        }
    }
    Ok(())
}

/// Writes all of the bytes to a host's text. After `Failed` some of them from the front were written, and not all.
pub fn put_all<H: Host>(host: &mut H, bytes: &[u8]) -> Result<(), Failed>
    ensures whole { OnOk result (H.state host.new ≡ text_with (H.state host.old) bytes.now) }
    ensures part { OnErr result (PartOfText bytes.now (H.state host.old) (H.state host.new)) }
    ensures no_fetch { H.taken host.new ≡ H.taken host.old }
    ensures unasked { H.fetches host.new ≡ H.fetches host.old }
{
    let mut at = 0;
    while at < bytes.len() {
        at += host.put_text(&bytes[at..])?;
    }
    Ok(())
}
