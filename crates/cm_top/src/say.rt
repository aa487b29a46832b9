//! Lines of text.
ghost use Rattle.std.specs.Prelude.{◌≡◌, ◌++◌, OnOk, map};
ghost use Rattle.cm_top.specs.Texts.{spoken};

use std::alloc::AllocError;

// Adds a line of these words, each after one blank but the first.
pub(crate) fn say(out: &mut Vec<u8>, words: &[&[u8]]) -> Result<(), AllocError>
    ensures { OnOk result (out.new.items ≡ out.old.items ++ spoken (map (λ word. word.now) words.now)) }
{
    match words {
        [] => {}
        [first, others @ ..] => {
            out.extend_from_slice(first)?;
            for word in others {
                out.push(b' ')?;
                out.extend_from_slice(word)?;
            }
        }
    }
    out.push(b'\n')?;
    Ok(())
}
