//! Reading an address.
ghost use Rattle.std.specs.Prelude.{IfOk, IfErr, MatchResult};
ghost use Rattle.cm_net.specs.Addresses.{IsFour, IsSix, IsAddress};
ghost use Rattle.cm_net.specs.Texts.{LeavesAt};
ghost use Rattle.cm_net.specs.Faults.{IsAddressFault};

use crate::four_reader::FourReader;
use crate::six_reader::SixReader;
use crate::{Address, NetFault};

/// The IPv4 address that a text spells, or the place at which the text leaves their grammar.
pub(crate) fn four_of(text: &[u8]) -> Result<u32, usize>
    ensures { MatchResult result (λ number. IsFour text.now number) (λ at. LeavesAt IsFour text.now at) }
{
    let mut reader = FourReader::new();
    for (at, byte) in text.iter().enumerate() {
        if !reader.step(*byte) {
            return Err(at);
        }
    }
    match reader.whole() {
        Some(number) => Ok(number),
        None => Err(text.len()),
    }
}

/// The IPv6 address that a text spells, or the place at which the text leaves their grammar.
pub(crate) fn six_of(text: &[u8]) -> Result<u128, usize>
    ensures { MatchResult result (λ number. IsSix text.now number) (λ at. LeavesAt IsSix text.now at) }
{
    let mut reader = SixReader::new();
    for (at, byte) in text.iter().enumerate() {
        if !reader.step(*byte) {
            return Err(at);
        }
    }
    match reader.whole() {
        Some(number) => Ok(number),
        None => Err(text.len()),
    }
}

/// The address that a text spells, or the place at which the text leaves the grammar of addresses.
pub(crate) fn address_of(text: &[u8]) -> Result<Address, usize>
    ensures { MatchResult result (λ address. IsAddress text.now address) (λ at. LeavesAt IsAddress text.now at) }
{
    match four_of(text) {
        Ok(number) => Ok(Address::V4(number)),
        Err(four) => match six_of(text) {
            Ok(number) => Ok(Address::V6(number)),
            Err(six) => Err(four.max(six)),
        },
    }
}

impl Address {
    /// The address that a text spells: IPv4 as four decimal numbers joined by `.`, IPv6 as eight groups of hexadecimal
    /// digits joined by `:`, or fewer with one `::`. The one fault is `BadAddress`.
    pub fn read(text: &[u8]) -> Result<Address, NetFault>
        ensures ok { IfOk result (λ address. IsAddress text.now address) }
        ensures fault { IfErr result (λ fault. IsAddressFault text.now fault) }
    {
        match address_of(text) {
            Ok(address) => Ok(address),
            Err(at) => Err(NetFault::BadAddress { at: at as u32 }),
        }
    }
}
