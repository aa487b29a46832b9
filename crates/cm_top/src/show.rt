//! A text and its status.
ghost use Rattle.std.specs.Prelude.{◌≡◌, ◌⊎◌};
ghost use Rattle.cm_top.specs.Texts.{text};
ghost use Rattle.cm_top.specs.Runs.{Prints, sunk};
ghost use Rattle.cm_top.specs.declared.ended.Ended.TheVariants.{Replied};
ghost use Rattle.cm_site.specs.declared.reply.Reply.TheVariants.{Memory};

use crate::texts::{status_of, text_of};
use crate::{Ended, Reply};
use cm_base::{Sink, write_text};
use std::alloc::Global;

// Prints these bytes, which are the text of the end.
fn print<K: Sink>(out: &mut K, ended: &Ended, bytes: &[u8]) -> u8
    requires { bytes.now ≡ text ended.now }
    ensures { Prints ended.now (sunk K.got K.faults out.old) (sunk K.got K.faults out.new) result }
{
    match write_text(out, bytes) {
        Ok(()) => status_of(ended),
        Err(_) => 4,
    }
}

/// Prints how a run ended. Where there is no memory for the text, that is printed instead.
pub(crate) fn show<K: Sink>(alloc: Global, out: &mut K, ended: &Ended) -> u8
    ensures { Prints ended.now (sunk K.got K.faults out.old) (sunk K.got K.faults out.new) result
        ⊎ Prints (Ended.Replied Reply.Memory) (sunk K.got K.faults out.old) (sunk K.got K.faults out.new) result }
{
    match text_of(alloc, ended) {
        Ok(bytes) => print(out, ended, &bytes),
        Err(_) => {
            let memory = Ended::Replied {
                reply: Reply::Memory,
            };
            print(out, &memory, b"memory\n")
        }
    }
}
