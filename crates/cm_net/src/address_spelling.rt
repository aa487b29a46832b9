//! Writing an address.
ghost use Rattle.std.specs.Prelude.{◌≡◌, ◌+◌, ◌*◌, ◌≤◌, ◌<◌, ◌++◌};
ghost use Rattle.arrayvec.specs.ArrayVec.{array_vec_len};
ghost use Rattle.cm_net.specs.Addresses.{decimal, IsAddress};
ghost use Rattle.cm_net.specs.Spellings.{hex_digit, hex_digits, hex_count, hexadecimal, joined_text, address_text};

use crate::Address;
use arrayvec::ArrayVec;

/// Adds a number below 1000 in decimal.
pub(crate) fn push_decimal<const CAP: usize>(out: &mut ArrayVec<u8, CAP>, number: u32)
    requires small { number < 1000 }
    requires room { array_vec_len out.old + 3 ≤ CAP }
    ensures items { out.new.items ≡ out.old.items ++ decimal number }
    ensures few { array_vec_len out.new ≤ array_vec_len out.old + 3 }
{
    if number < 10 {
        out.push(b'0' + number as u8);
        return;
    }
    if number < 100 {
        out.push(b'0' + (number / 10) as u8);
        out.push(b'0' + (number % 10) as u8);
        return;
    }
    out.push(b'0' + (number / 100) as u8);
    out.push(b'0' + (number / 10 % 10) as u8);
    out.push(b'0' + (number % 10) as u8);
}

/// A hexadecimal digit in small letters.
fn hex_digit(digit: u8) -> u8
    requires { digit < 16 }
    ensures { result ≡ hex_digit digit }
{
    if digit < 10 {
        b'0' + digit
    } else {
        b'a' - 10 + digit
    }
}

/// Adds the last so many hexadecimal digits of a number.
fn push_digits<const CAP: usize>(out: &mut ArrayVec<u8, CAP>, count: u8, number: u16)
    requires { array_vec_len out.old + count ≤ CAP }
    ensures items { out.new.items ≡ out.old.items ++ hex_digits count number }
    ensures len { array_vec_len out.new ≡ array_vec_len out.old + count }
{
    if count == 0 {
        return;
    }
    push_digits(out, count - 1, number / 16);
    out.push(hex_digit((number % 16) as u8));
}

/// How many hexadecimal digits a number has without leading zeros.
fn hex_count(number: u16) -> u8
    ensures count { result ≡ hex_count number }
    ensures few { result ≤ 4 }
{
    if number < 16 {
        1
    } else if number < 256 {
        2
    } else if number < 4096 {
        3
    } else {
        4
    }
}

/// Adds a group of an IPv6 address.
fn push_group<const CAP: usize>(out: &mut ArrayVec<u8, CAP>, number: u16)
    requires { array_vec_len out.old + 4 ≤ CAP }
    ensures items { out.new.items ≡ out.old.items ++ hexadecimal number }
    ensures few { array_vec_len out.new ≤ array_vec_len out.old + 4 }
{
    push_digits(out, hex_count(number), number);
}

/// Adds the last so many parts of an IPv4 address, joined by `.`.
pub(crate) fn push_parts<const CAP: usize>(out: &mut ArrayVec<u8, CAP>, count: u8, number: u32)
    requires some { 0 < count }
    requires room { array_vec_len out.old + 4 * count ≤ CAP + 1 }
    ensures items { out.new.items ≡ out.old.items ++ joined_text decimal 46 256 count number }
    ensures few { array_vec_len out.new + 1 ≤ array_vec_len out.old + 4 * count }
{
    if count == 1 {
        push_decimal(out, number % 256);
        return;
    }
    push_parts(out, count - 1, number / 256);
    out.push(b'.');
    push_decimal(out, number % 256);
}

/// Adds the last so many groups of an IPv6 address, joined by `:`.
pub(crate) fn push_groups<const CAP: usize>(out: &mut ArrayVec<u8, CAP>, count: u8, number: u128)
    requires some { 0 < count }
    requires room { array_vec_len out.old + 5 * count ≤ CAP + 1 }
    ensures items { out.new.items ≡ out.old.items ++ joined_text hexadecimal 58 65536 count number }
    ensures few { array_vec_len out.new + 1 ≤ array_vec_len out.old + 5 * count }
{
    if count == 1 {
        push_group(out, (number % 65536) as u16);
        return;
    }
    push_groups(out, count - 1, number / 65536);
    out.push(b':');
    push_group(out, (number % 65536) as u16);
}

/// Adds the spelling of an address.
pub(crate) fn push_address<const CAP: usize>(out: &mut ArrayVec<u8, CAP>, address: Address)
    requires { array_vec_len out.old + 39 ≤ CAP }
    ensures items { out.new.items ≡ out.old.items ++ address_text address }
    ensures few { array_vec_len out.new ≤ array_vec_len out.old + 39 }
    ensures spelled { IsAddress (address_text address) address }
{
    match address {
        Address::V4(number) => push_parts(out, 4, number),
        Address::V6(number) => push_groups(out, 8, number),
    }
}

impl Address {
    /// Writes the address in place of what `out` held: IPv4 in decimal, IPv6 as eight groups in small letters, both
    /// without leading zeros.
    pub fn write(&self, out: &mut ArrayVec<u8, 39>)
        ensures spelling { out.new.items ≡ address_text self.now }
        ensures reads { IsAddress out.new.items self.now }
    {
        out.clear();
        push_address(out, *self);
    }
}
