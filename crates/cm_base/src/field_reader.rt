//! Fixed fields from the front of some bytes.
ghost use Rattle.std.specs.Prelude.{◌≡◌, ◌+◌, ◌≤◌, length, option_map};
ghost use Rattle.std.specs.Int.{w8, w16, w32, w64};

/// Reads fixed fields from the front of some bytes. Numbers are little-endian.
#[derive(Drop)]
pub struct FieldReader<'a> {
    bytes: &'a [u8],
    at: usize,
    ghost within: { at ≤ length bytes.now },
}

impl<'a> FieldReader<'a> {
    ghost use Rattle.cm_base.specs.Fields.{left_of, whole_of, ReadsNumber, ReadsBytes};

    /// A reader at the first byte.
    pub fn new(bytes: &'a [u8]) -> FieldReader<'a>
        ensures whole { whole_of result ≡ bytes.now }
        ensures left { left_of result ≡ bytes.now }
    {
        FieldReader { bytes, at: 0 }
    }

    /// The place of the next byte, from 0.
    pub fn at(&self) -> usize
        ensures { result + length (left_of self.now) ≡ length (whole_of self.now) }
    {
        self.at
    }

    /// The next `count` bytes. None exactly where fewer are left; then nothing is taken.
    pub fn bytes(&mut self, count: usize) -> Option<&'a [u8]>
        ensures read { ReadsBytes count self.old self.new (option_map (λ bytes. bytes.now) result) }
    {
        if self.bytes.len() - self.at < count {
            return None;
        }
        let from = self.at;
        self.at = from + count;
        Some(&self.bytes[from..from + count])
    }

    /// The next byte. None exactly where none is left.
    pub fn u8(&mut self) -> Option<u8>
        ensures read { ReadsNumber w8 self.old self.new result }
    {
        let bytes = self.bytes(1)?;
        Some(bytes[0])
    }

    /// The number in the next two bytes. None exactly where fewer are left; then nothing is taken.
    pub fn u16(&mut self) -> Option<u16>
        ensures read { ReadsNumber w16 self.old self.new result }
    {
        let bytes = self.bytes(2)?;
        Some(u16::from_le_bytes([bytes[0], bytes[1]]))
    }

    /// The number in the next four bytes. None exactly where fewer are left; then nothing is taken.
    pub fn u32(&mut self) -> Option<u32>
        ensures read { ReadsNumber w32 self.old self.new result }
    {
        let bytes = self.bytes(4)?;
        Some(u32::from_le_bytes([bytes[0], bytes[1], bytes[2], bytes[3]]))
    }

    /// The number in the next eight bytes. None exactly where fewer are left; then nothing is taken.
    pub fn u64(&mut self) -> Option<u64>
        ensures read { ReadsNumber w64 self.old self.new result }
    {
        let bytes = self.bytes(8)?;
        Some(u64::from_le_bytes([
            bytes[0], bytes[1], bytes[2], bytes[3], bytes[4], bytes[5], bytes[6], bytes[7],
        ]))
    }
}
