//! Numbers in decimal, with no memory.
ghost use Rattle.std.specs.Prelude.{◌≡◌, ◌<◌, drop};
ghost use Rattle.std.specs.Fmt.{decimal};

/// Writes a number in decimal at the end of the buffer, and tells where it begins.
pub fn write_decimal(number: u32, out: &mut [u8; 10]) -> usize
    ensures text { drop result out.new ≡ decimal number }
    ensures begins { result < 10 }
{
    let mut left = number;
    let mut at = 10;
    while left >= 10 {
        at -= 1;
        out[at] = b'0' + (left % 10) as u8;
        left /= 10;
    }
    at -= 1;
    out[at] = b'0' + left as u8;
    at
}
