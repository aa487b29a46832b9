//! Reading an IPv4 address, byte by byte.
ghost use Rattle.std.specs.Prelude.{◌≡◌, ◌<◌, ◌+◌, ◌-◌, ◌*◌, Some, None, MatchBool};
ghost use Rattle.cm_net.specs.FourReader.{four_of, longer_part, lone4, step4, final4};

use arrayvec::ArrayVec;

/// What was read so far: whole parts, and the part that is begun.
#[derive(Drop)]
pub(crate) struct FourReader {
    pub parts: ArrayVec<u8, 3>,
    pub part: Option<u8>,
}

/// A part with a further digit. None where no part begins so.
fn longer(part: Option<u8>, digit: u8) -> Option<u8>
    requires { digit < 10 }
    ensures { result ≡ longer_part part digit }
{
    match part {
        None => Some(digit),
        Some(0) => None,
        Some(part) => u8::try_from(u16::from(part) * 10 + u16::from(digit)).ok(),
    }
}

impl FourReader {
    /// Nothing was read.
    pub(crate) fn new() -> FourReader
        ensures { four_of result ≡ record { count = 0; value = 0; part = None } }
    {
        FourReader {
            parts: ArrayVec::new(),
            part: None,
        }
    }

    /// Reads a byte. False, and nothing is read, where no text of an address goes on so.
    pub(crate) fn step(&mut self, byte: u8) -> bool
        ensures { MatchBool result (step4 (four_of self.old) byte ≡ Some (four_of self.new)) (step4 (four_of self.old) byte ≡ None) }
    {
        if byte.is_ascii_digit() {
            let Some(part) = longer(self.part, byte - b'0') else {
                return false;
            };
            self.part = Some(part);
            return true;
        }
        if byte != b'.' || self.parts.len() == 3 {
            return false;
        }
        let Some(part) = self.part else {
            return false;
        };
        self.parts.push(part);
        self.part = None;
        true
    }

    /// The address that was read. None where it is not whole.
    pub(crate) fn whole(&self) -> Option<u32>
        ensures { result ≡ final4 (four_of self.now) }
    {
        let last = self.part?;
        let [first, second, third] = self.parts.as_slice() else {
            return None;
        };
        let high = u32::from(*first) * 65536 + u32::from(*second) * 256 + u32::from(*third);
        Some(high * 256 + u32::from(last))
    }

    /// The part that is begun, where no whole part is before it.
    pub(crate) fn lone(&self) -> Option<u8>
        ensures { result ≡ lone4 (four_of self.now) }
    {
        if self.parts.is_empty() {
            self.part
        } else {
            None
        }
    }
}
