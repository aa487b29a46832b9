//! The words of the command line are read.
ghost use Rattle.std.specs.Prelude.{◌≡◌, ◌≢◌, ℕ, ◌+◌, ◌-◌, ◌<◌, ◌≤◌, ◌^◌, ◌↔◌, List, Some, length, slice_get, slice_index, option_map, IsTrue, OnOk, IfOk, IfErr, Ok, Err};
ghost use Rattle.std.specs.Fmt.{decimal};
ghost use Rattle.cm_top.specs.Numbers.{number_within, job_of, version_of};
ghost use Rattle.cm_top.specs.Words.{texts, is_option, is_end, has_option, values_of, counted_values, value_at, names_from, package_of};
ghost use Rattle.cm_top.specs.Words.{read_init, read_add, read_update, read_list, read_drop, read_validate, read_what_if, read_purge, read_topology, read_line};
ghost use Rattle.cm_base.specs.Names.{name_of};
ghost use Rattle.cm_top.specs.declared.fault.WordsFault.TheVariants.{Memory};

use crate::{Line, WordsFault};
use cm_base::{JobId, List, PackageId, ServerName, Version};
use std::alloc::Global;

fn ends_options(word: &[u8]) -> bool
    ensures { result ≡ is_end word.now }
{
    word == b"--".as_slice()
}

fn begins_option(word: &[u8]) -> bool
    ensures { result ≡ is_option word.now }
{
    word.len() > 1 && word[0] == b'-'
}

fn has_options(words: &[String]) -> bool
    ensures { result ≡ has_option (texts words.now) }
{
    for word in words {
        if ends_options(word.as_bytes()) {
            return false;
        }
        if begins_option(word.as_bytes()) {
            return true;
        }
    }
    false
}

fn names(alloc: Global, words: &[String]) -> Result<Vec<ServerName>, WordsFault>
    ensures ok { IfOk result (λ names. names_from 1 (values_of (texts words.now)) ≡ Ok names.items) }
    ensures err { IfErr result (λ fault. fault ≢ WordsFault.Memory → names_from 1 (values_of (texts words.now)) ≡ Err fault) }
{
    let mut names = Vec::new(alloc);
    let mut ended = false;
    let mut number = 1;
    for word in words {
        if !ended && ends_options(word.as_bytes()) {
            ended = true;
        } else {
            match ServerName::read(word.as_bytes()) {
                Some(name) => {
                    if names.push(name).is_err() {
                        return Err(WordsFault::Memory);
                    }
                }
                None => return Err(WordsFault::BadValue { value: number }),
            }
            number += 1;
        }
    }
    Ok(names)
}

// The number of values.
fn count_values(words: &[String]) -> usize
    ensures { result ≡ length (values_of (texts words.now)) }
{
    let mut count = 0;
    let mut ended = false;
    for word in words {
        if !ended && ends_options(word.as_bytes()) {
            ended = true;
        } else {
            count += 1;
        }
    }
    count
}

// Refuses another number of values than this one, and options.
fn expect_values(words: &[String], count: usize) -> Result<(), WordsFault>
    ensures ok { OnOk result (counted_values count (texts words.now) ≡ Ok (values_of (texts words.now))) }
    ensures err { IfErr result (λ fault. counted_values count (texts words.now) ≡ Err fault) }
{
    let there = count_values(words);
    if has_options(words) || there > count {
        return Err(WordsFault::ExtraWord);
    }
    if there < count {
        return Err(WordsFault::MissingWord {
            value: there as u64 + 1,
        });
    }
    Ok(())
}

// The value with that number, from 1.
fn value(words: &[String], number: u64) -> Option<&str>
    requires { 1 ≤ number }
    ensures { option_map (λ text. text.now) result ≡ slice_get (values_of (texts words.now)) (number - 1) }
{
    let mut before = number - 1;
    let mut ended = false;
    for word in words {
        if !ended && ends_options(word.as_bytes()) {
            ended = true;
        } else {
            if before == 0 {
                return Some(word.as_str());
            }
            before -= 1;
        }
    }
    None
}

// No plus stands in front, and no zero in front of further digits: `parse` lets them pass.
fn is_plain(text: &str) -> bool
    ensures { IsTrue result ↔ ((slice_index text.now 0 ≢ 43) × (slice_index text.now 0 ≡ 48 → length text.now ≤ 1)) }
{
    !matches!(text.as_bytes(), [b'+', ..] | [b'0', _, ..])
}

/// A text is read as a number exactly where it is the decimal digits of that number, and the number is within the bounds.
pub fn numbers_are_their_digits()
    ensures { (least most n : ℕ) (text : List ℕ) → most < 2 ^ 64
        → (number_within least most text ≡ Some n) ↔ ((text ≡ decimal n) × (least ≤ n) × (n ≤ most)) }
{}

// The number from `least` to `most` whose decimal digits the text is.
fn number_within(text: &str, least: u64, most: u64) -> Option<u64>
    ensures { result ≡ number_within least most text.now }
{
    if !is_plain(text) {
        return None;
    }
    match text.parse::<u64>() {
        Ok(number) => {
            if least <= number && number <= most {
                Some(number)
            } else {
                None
            }
        }
        Err(_) => None,
    }
}

fn read_job(text: &str) -> Option<JobId>
    ensures { result ≡ job_of text.now }
{
    match number_within(text, 1, u64::MAX) {
        Some(number) => JobId::new(number),
        None => None,
    }
}

fn read_version(text: &str) -> Option<Version>
    ensures { result ≡ version_of text.now }
{
    match number_within(text, 1, u32::MAX as u64) {
        Some(number) => Version::new(number as u32),
        None => None,
    }
}

fn package_at(words: &[String], number: u64) -> Result<PackageId, WordsFault>
    requires { 1 ≤ number }
    ensures { result ≡ value_at package_of number (values_of (texts words.now)) }
{
    match value(words, number) {
        Some(text) => PackageId::read(text.as_bytes()).ok_or(WordsFault::BadValue {
            value: number,
        }),
        None => Err(WordsFault::MissingWord { value: number }),
    }
}

fn name_at(words: &[String], number: u64) -> Result<ServerName, WordsFault>
    requires { 1 ≤ number }
    ensures { result ≡ value_at name_of number (values_of (texts words.now)) }
{
    match value(words, number) {
        Some(text) => ServerName::read(text.as_bytes()).ok_or(WordsFault::BadValue {
            value: number,
        }),
        None => Err(WordsFault::MissingWord { value: number }),
    }
}

fn job_at(words: &[String], number: u64) -> Result<JobId, WordsFault>
    requires { 1 ≤ number }
    ensures { result ≡ value_at job_of number (values_of (texts words.now)) }
{
    match value(words, number) {
        Some(text) => read_job(text).ok_or(WordsFault::BadValue { value: number }),
        None => Err(WordsFault::MissingWord { value: number }),
    }
}

fn version_at(words: &[String], number: u64) -> Result<Version, WordsFault>
    requires { 1 ≤ number }
    ensures { result ≡ value_at version_of number (values_of (texts words.now)) }
{
    match value(words, number) {
        Some(text) => read_version(text).ok_or(WordsFault::BadValue { value: number }),
        None => Err(WordsFault::MissingWord { value: number }),
    }
}

fn init_line(alloc: Global, words: &[String]) -> Result<Line, WordsFault>
    ensures ok { IfOk result (λ line. read_init (texts words.now) ≡ Ok line) }
    ensures err { IfErr result (λ fault. fault ≢ WordsFault.Memory → read_init (texts words.now) ≡ Err fault) }
{
    if has_options(words) {
        return Err(WordsFault::ExtraWord);
    }
    match names(alloc, words) {
        Ok(names) => Ok(Line::Init {
            names: List::of(names),
        }),
        Err(fault) => Err(fault),
    }
}

fn add_line(words: &[String]) -> Result<Line, WordsFault>
    ensures { result ≡ read_add (texts words.now) }
{
    expect_values(words, 1)?;
    let package = package_at(words, 1)?;
    Ok(Line::Add { package })
}

fn update_line(words: &[String]) -> Result<Line, WordsFault>
    ensures { result ≡ read_update (texts words.now) }
{
    expect_values(words, 1)?;
    let package = package_at(words, 1)?;
    Ok(Line::Update { package })
}

fn list_line(words: &[String]) -> Result<Line, WordsFault>
    ensures { result ≡ read_list (texts words.now) }
{
    expect_values(words, 1)?;
    let bay = name_at(words, 1)?;
    Ok(Line::List { bay })
}

fn drop_line(words: &[String]) -> Result<Line, WordsFault>
    ensures { result ≡ read_drop (texts words.now) }
{
    expect_values(words, 2)?;
    let bay = name_at(words, 1)?;
    let job = job_at(words, 2)?;
    Ok(Line::Drop { bay, job })
}

fn validate_line(words: &[String]) -> Result<Line, WordsFault>
    ensures { result ≡ read_validate (texts words.now) }
{
    expect_values(words, 3)?;
    let bay = name_at(words, 1)?;
    let package = package_at(words, 2)?;
    let version = version_at(words, 3)?;
    Ok(Line::Validate {
        bay,
        package,
        version,
    })
}

fn what_if_line(words: &[String]) -> Result<Line, WordsFault>
    ensures { result ≡ read_what_if (texts words.now) }
{
    expect_values(words, 1)?;
    let bay = name_at(words, 1)?;
    Ok(Line::WhatIf { bay })
}

fn purge_line(words: &[String]) -> Result<Line, WordsFault>
    ensures { result ≡ read_purge (texts words.now) }
{
    expect_values(words, 1)?;
    let bay = name_at(words, 1)?;
    Ok(Line::Purge { bay })
}

fn topology_line(words: &[String]) -> Result<Line, WordsFault>
    ensures { result ≡ read_topology (texts words.now) }
{
    expect_values(words, 0)?;
    Ok(Line::Topology)
}

/// The line that the words say, or the first reason why they say none.
pub fn read_words(alloc: Global, words: &[String]) -> Result<Line, WordsFault>
    ensures ok { IfOk result (λ line. read_line (texts words.now) ≡ Ok line) }
    ensures err { IfErr result (λ fault. fault ≢ WordsFault.Memory → read_line (texts words.now) ≡ Err fault) }
{
    if words.is_empty() {
        return Err(WordsFault::NoCommand);
    }
    let rest = &words[1..];
    match words[0].as_str() {
        "init" => init_line(alloc, rest),
        "add" => add_line(rest),
        "update" => update_line(rest),
        "list" => list_line(rest),
        "drop" => drop_line(rest),
        "validate" => validate_line(rest),
        "what-if" => what_if_line(rest),
        "purge" => purge_line(rest),
        "topology" => topology_line(rest),
        _ => Err(WordsFault::UnknownCommand),
    }
}
