//! What single values say.
ghost use Rattle.std.specs.Prelude.{◌≡◌, ◌≤◌, IfErr, IfOk, IfSome, None, Some, Ok, Err};
ghost use Rattle.cm_net.specs.Boundaries.{IsSound};
ghost use Rattle.cm_net.specs.Meanings.{IsAddressOf, IsBoundaryOf};
ghost use Rattle.cm_net.specs.Readings.{address_in as address_meant, boundary_in as boundary_meant};
ghost use Rattle.toml.specs.Data.{as_str};
ghost use Rattle.toml.specs.View.{view};
ghost use Rattle.cm_topo.specs.Keys.{address_said, boundary_said, code_said, flag_said, is_reserved, label_said, minutes_said, name_said, number_said, within};
ghost use Rattle.cm_topo.specs.declared.trouble.Trouble.TheVariants.{Shape};

use crate::entries::Said;
use crate::rules::{
    BAD_ADDRESS, BAD_NAME, MOST_CONNECTIONS, MOST_MINUTES, MOST_PRIORITY, TOO_LONG_FALLBACK,
};
use crate::trouble::Trouble;
use cm_base::{Label, ServerName};
use cm_groups::{Fallback, SiteCode};
use cm_net::{Address, Boundary, SiteName, each_text_is_read};
use std::alloc::Global;
use toml::Value;

/// The text that a value is.
fn text_in(value: &Value) -> Result<&str, Trouble>
    ensures text { IfOk result (λ text. as_str (view value.now) ≡ Some text.now) }
    ensures none { IfErr result (λ trouble. (trouble ≡ Shape) × (as_str (view value.now) ≡ None)) }
{
    value.as_str().ok_or(Trouble::Shape)
}

impl Said for Label {
    ghost said = { label_said };

    fn read(_alloc: Global, value: &Value) -> Result<Label, Trouble> {
        let text = text_in(value)?;
        Label::read(text.as_bytes()).ok_or(Trouble::Broken(BAD_NAME))
    }
}

impl Said for ServerName {
    ghost said = { name_said };

    fn read(_alloc: Global, value: &Value) -> Result<ServerName, Trouble> {
        let text = text_in(value)?;
        ServerName::read(text.as_bytes()).ok_or(Trouble::Broken(BAD_NAME))
    }
}

impl Said for SiteName {
    ghost said = { name_said };

    fn read(_alloc: Global, value: &Value) -> Result<SiteName, Trouble> {
        let text = text_in(value)?;
        SiteName::read(text.as_bytes()).ok_or(Trouble::Broken(BAD_NAME))
    }
}

impl Said for SiteCode {
    ghost said = { code_said };

    fn read(_alloc: Global, value: &Value) -> Result<SiteCode, Trouble> {
        let text = text_in(value)?;
        SiteCode::read(text.as_bytes()).ok_or(Trouble::Broken(BAD_NAME))
    }
}

/// Whether a shelf of the site has the name, so that no point may have it.
pub(crate) fn is_reserved(name: &ServerName) -> bool
    ensures { result ≡ is_reserved name.now }
{
    name.as_bytes() == b"site".as_slice() || name.as_bytes() == b"records".as_slice()
}

/// The address that a text spells.
fn address_read(text: &[u8]) -> Option<Address>
    ensures { IsAddressOf text.now result }
{
    match Address::read(text) {
        Ok(address) => Some(address),
        Err(_) => None,
    }
}

/// The address that a text spells, as a function of the text.
fn address_of(text: &[u8]) -> Option<Address>
    ensures { result ≡ address_meant text.now }
{
    each_text_is_read();
    address_read(text)
}

impl Said for Address {
    ghost said = { address_said };

    fn read(_alloc: Global, value: &Value) -> Result<Address, Trouble> {
        let text = text_in(value)?;
        address_of(text.as_bytes()).ok_or(Trouble::Broken(BAD_ADDRESS))
    }
}

/// The boundary that a text spells, or the rule that it breaks.
fn boundary_read(text: &[u8]) -> Result<Boundary, u8>
    ensures read { IsBoundaryOf text.now result }
    ensures sound { IfOk result (λ boundary. IsSound boundary) }
{
    match Boundary::read(text) {
        Ok(boundary) => Ok(boundary),
        Err(fault) => Err(fault.rule()),
    }
}

/// The boundary that a text spells, or the rule that it breaks, as a function of the text.
fn boundary_of(text: &[u8]) -> Result<Boundary, u8>
    ensures read { result ≡ boundary_meant text.now }
    ensures sound { IfOk result (λ boundary. IsSound boundary) }
{
    each_text_is_read();
    boundary_read(text)
}

impl Said for Boundary {
    ghost said = { boundary_said };

    ghost IsFit = { IsSound };

    fn read(_alloc: Global, value: &Value) -> Result<Boundary, Trouble> {
        let text = text_in(value)?;
        match boundary_of(text.as_bytes()) {
            Ok(boundary) => Ok(boundary),
            Err(rule) => Err(Trouble::Broken(rule)),
        }
    }
}

impl Said for bool {
    ghost said = { flag_said };

    fn read(_alloc: Global, value: &Value) -> Result<bool, Trouble> {
        value.as_bool().ok_or(Trouble::Shape)
    }
}

/// The number, where it is from 0 to the most.
fn within(number: i64, most: u16) -> Option<u16>
    ensures number { result ≡ within most number }
    ensures most { IfSome result (λ found. found ≤ most) }
{
    if 0 <= number && number <= i64::from(most) {
        Some(number as u16)
    } else {
        None
    }
}

/// The number from 0 to the most that a value is.
fn number_in(value: &Value, most: u16) -> Result<u16, Trouble>
    ensures number { result ≡ number_said most (view value.now) }
    ensures most { IfOk result (λ number. number ≤ most) }
{
    let number = value.as_integer().ok_or(Trouble::Shape)?;
    within(number, most).ok_or(Trouble::Broken(BAD_NAME))
}

/// A priority.
impl Said for u8 {
    ghost said = { number_said 255 };

    fn read(_alloc: Global, value: &Value) -> Result<u8, Trouble> {
        match number_in(value, MOST_PRIORITY) {
            Ok(priority) => Ok(priority as u8),
            Err(trouble) => Err(trouble),
        }
    }
}

/// A number of connections.
impl Said for u16 {
    ghost said = { number_said 65535 };

    fn read(_alloc: Global, value: &Value) -> Result<u16, Trouble> {
        number_in(value, MOST_CONNECTIONS)
    }
}

/// The minutes of a relation.
impl Said for Fallback {
    ghost said = { minutes_said };

    fn read(_alloc: Global, value: &Value) -> Result<Fallback, Trouble> {
        if let Some(text) = value.as_str() {
            if text.as_bytes() == b"never".as_slice() {
                return Ok(Fallback::Never);
            }
            return Err(Trouble::Broken(TOO_LONG_FALLBACK));
        }
        let number = value.as_integer().ok_or(Trouble::Shape)?;
        match within(number, MOST_MINUTES) {
            Some(minutes) => Ok(Fallback::After(minutes)),
            None => Err(Trouble::Broken(TOO_LONG_FALLBACK)),
        }
    }
}
