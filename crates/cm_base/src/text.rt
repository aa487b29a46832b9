//! A text into a sink.
ghost use Rattle.std.specs.Prelude.{◌≡◌, ◌++◌, OnOk, OnErr};
ghost use Rattle.cm_base.specs.Causes.{HasCause};
ghost use Rattle.cm_base.specs.Streams.{Gets, GetsFront};

use crate::{Sink, SinkFault};

/// Writes a text, in as many pieces as the sink takes. After a fault the sink got a front of it.
pub fn write_text<K: Sink>(out: &mut K, text: &[u8]) -> Result<(), SinkFault>
    ensures whole { OnOk result (Gets (K.got out.old) (K.got out.new) text.now) }
    ensures front { OnErr result (GetsFront (K.got out.old) (K.got out.new) text.now) }
    ensures beside { K.beside out.new ≡ K.beside out.old }
    ensures cause { HasCause (K.faults out.old) (K.faults out.new) result }
{
    let mut at = 0;
    while at < text.len() {
        match out.write(&text[at..]) {
            Ok(count) => at += count,
            Err(fault) => return Err(fault),
        }
    }
    Ok(())
}

/// Writes one text after another. After a fault the sink got a front of both.
#[tactic(auto, using(crate::proofs::Sunk::gets_both, crate::proofs::Sunk::front_of_both, crate::proofs::Sunk::front_of_first))]
pub fn write_two<K: Sink>(out: &mut K, first: &[u8], second: &[u8]) -> Result<(), SinkFault>
    ensures whole { OnOk result (Gets (K.got out.old) (K.got out.new) (first.now ++ second.now)) }
    ensures front { OnErr result (GetsFront (K.got out.old) (K.got out.new) (first.now ++ second.now)) }
    ensures beside { K.beside out.new ≡ K.beside out.old }
    ensures cause { HasCause (K.faults out.old) (K.faults out.new) result }
{
    match write_text(out, first) {
        Ok(()) => match write_text(out, second) {
            Ok(()) => Ok(()),
            Err(fault) => Err(fault),
        },
        Err(fault) => Err(fault),
    }
}
