//! Reading an IPv6 address, byte by byte.
ghost use Rattle.std.specs.Prelude.{◌≡◌, ◌≤◌, ◌<◌, ◌+◌, ◌-◌, ◌*◌, ◌^◌, Some, None, MatchBool, IfSome};
ghost use Rattle.cm_net.specs.Addresses.{hex_of};
ghost use Rattle.arrayvec.specs.ArrayVec.{array_vec_len};

use crate::six_groups::{number_of, spread};
use arrayvec::ArrayVec;

/// Where the reader stands.
#[derive(Clone, Copy)]
pub(crate) enum Place {
    /// At the first byte.
    Start,
    /// Behind a first `:`.
    Colon,
    /// Within a group.
    Group,
    /// Behind the `:` of a group.
    Next,
    /// Behind the `::`.
    Gap,
    /// Within a group behind the `::`.
    LastGroup,
    /// Behind the `:` of a group behind the `::`.
    LastNext,
}

/// What was read so far: whole groups before the `::` and behind it, and the digits of the group that is begun.
#[derive(Drop)]
pub(crate) struct SixReader {
    pub place: Place,
    pub left: ArrayVec<u16, 8>,
    pub right: ArrayVec<u16, 8>,
    pub digits: u8,
    pub number: u16,
    ghost few: { array_vec_len left + array_vec_len right ≤ 7 },
    ghost fits: { number < 16 ^ digits },
}

/// What a hexadecimal digit of either case stands for.
fn hex_of(byte: u8) -> Option<u8>
    ensures value { result ≡ hex_of byte }
    ensures small { IfSome result (λ digit. digit < 16) }
{
    match byte {
        b'0'..=b'9' => Some(byte - b'0'),
        b'a'..=b'f' => Some(byte - b'a' + 10),
        b'A'..=b'F' => Some(byte - b'A' + 10),
        _ => None,
    }
}

impl SixReader {
    ghost use Rattle.cm_net.specs.SixReader.{six_of, begun, longer_group, digit_at, colon_at, step6};

    /// Nothing was read.
    pub(crate) fn new() -> SixReader
        ensures { six_of result ≡ record { place = Place.Start; count = 0; value = 0; last_count = 0; last_value = 0; digits = 0; number = 0 } }
    {
        SixReader {
            place: Place::Start,
            left: ArrayVec::new(),
            right: ArrayVec::new(),
            digits: 0,
            number: 0,
        }
    }

    /// A group begins.
    fn begin(&mut self, place: Place, digit: u8)
        requires { digit < 16 }
        ensures { six_of self.new ≡ begun (six_of self.old) place digit }
    {
        self.place = place;
        self.digits = 1;
        self.number = u16::from(digit);
    }

    /// A group goes on. False, and nothing is read, where it has four digits.
    fn go_on(&mut self, digit: u8) -> bool
        requires { digit < 16 }
        ensures { MatchBool result (longer_group (six_of self.old) digit ≡ Some (six_of self.new)) (longer_group (six_of self.old) digit ≡ None) }
    {
        if self.digits >= 4 {
            return false;
        }
        self.number = self.number * 16 + u16::from(digit);
        self.digits += 1;
        true
    }

    /// Reads a hexadecimal digit. False, and nothing is read, where no text of an address goes on so.
    fn digit(&mut self, digit: u8) -> bool
        requires { digit < 16 }
        ensures { MatchBool result (digit_at self.old.place (six_of self.old) digit ≡ Some (six_of self.new)) (digit_at self.old.place (six_of self.old) digit ≡ None) }
    {
        match self.place {
            Place::Start => self.begin(Place::Group, digit),
            Place::Colon => return false,
            Place::Group => return self.go_on(digit),
            Place::Next => self.begin(Place::Group, digit),
            Place::Gap => {
                if self.left.len() + self.right.len() >= 7 {
                    return false;
                }
                self.begin(Place::LastGroup, digit);
            }
            Place::LastGroup => return self.go_on(digit),
            Place::LastNext => self.begin(Place::LastGroup, digit),
        }
        true
    }

    /// Reads a `:`. False, and nothing is read, where no text of an address goes on so.
    fn colon(&mut self) -> bool
        ensures { MatchBool result (colon_at self.old.place (six_of self.old) ≡ Some (six_of self.new)) (colon_at self.old.place (six_of self.old) ≡ None) }
    {
        match self.place {
            Place::Start => self.place = Place::Colon,
            Place::Colon => self.place = Place::Gap,
            Place::Group => {
                if self.left.len() + self.right.len() >= 7 {
                    return false;
                }
                self.left.push(self.number);
                self.place = Place::Next;
            }
            Place::Next => self.place = Place::Gap,
            Place::Gap => return false,
            Place::LastGroup => {
                if self.left.len() + self.right.len() >= 6 {
                    return false;
                }
                self.right.push(self.number);
                self.place = Place::LastNext;
            }
            Place::LastNext => return false,
        }
        true
    }

    /// Reads a byte. False, and nothing is read, where no text of an address goes on so.
    pub(crate) fn step(&mut self, byte: u8) -> bool
        ensures { MatchBool result (step6 (six_of self.old) byte ≡ Some (six_of self.new)) (step6 (six_of self.old) byte ≡ None) }
    {
        if let Some(digit) = hex_of(byte) {
            return self.digit(digit);
        }
        byte == b':' && self.colon()
    }
}

impl SixReader {
    ghost use Rattle.cm_net.specs.SixReader.{six_of, final6};

    /// The address that was read. None where it is not whole.
    pub(crate) fn whole(self) -> Option<u128>
        ensures { result ≡ final6 (six_of self) }
    {
        let SixReader {
            place,
            mut left,
            mut right,
            digits: _,
            number,
        } = self;
        match place {
            Place::Group => {
                if left.len() != 7 {
                    return None;
                }
                left.push(number);
                Some(number_of(&spread(left.as_slice(), &[])))
            }
            Place::Gap => Some(number_of(&spread(left.as_slice(), right.as_slice()))),
            Place::LastGroup => {
                right.push(number);
                Some(number_of(&spread(left.as_slice(), right.as_slice())))
            }
            _ => None,
        }
    }
}
