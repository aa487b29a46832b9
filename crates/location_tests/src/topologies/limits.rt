//! As many entries as there may be, and one more.

use super::base::{fault, fault_of};
use std::alloc::Global;
use std::fmt::Write;
use std::test::Fail;

/// A part's key, what an entry has behind its name, how many there may be, and the part's number.
const PARTS: [(&str, &str, u16, u8); 5] = [
    ("boundary", "at = \"site:a\"", 2000, 1),
    ("group", "peers = false", 500, 2),
    ("point", "address = \"::1\"", 64, 4),
    ("point_group", "members = []", 64, 5),
    ("peer", "address = \"::1\"\nconnections = 65535", 5000, 6),
];

/// So many entries of a part, each with its number in its name.
fn entries(alloc: Global, key: &str, rest: &str, count: u16) -> Result<String, Fail> {
    let mut text = String::from_str(alloc, "code = \"PS1\"\n")?;
    for number in 0..count {
        write!(text, "[[{key}]]\nname = \"n{number}\"\n{rest}\n")?;
    }
    Ok(text)
}

/// Seventy groups, and one with so many relations of these minutes to them.
fn relations(alloc: Global, count: u16, minutes: &str) -> Result<String, Fail> {
    let mut text = entries(alloc, "group", "peers = true", 70)?;
    write!(text, "[[group]]\nname = \"G\"\n")?;
    for number in 0..count {
        write!(
            text,
            "[[group.relation]]\nto = \"n{number}\"\nminutes = {minutes}\n"
        )?;
    }
    Ok(text)
}

#[test]
fn each_part_has_its_limit(rt: HostRuntime) -> Result<(), Fail> {
    for (key, rest, count, part) in PARTS {
        let mut text = entries(rt.alloc(), key, rest, count)?;
        assert_eq!(rt; fault_of(rt.alloc(), text.as_str()), None, "{key}");
        write!(text, "[[{key}]]\nname = 1\n")?;
        let found = fault_of(rt.alloc(), text.as_str());
        assert_eq!(rt; found, Some(fault(15, part, count)), "{key}");
    }
    Ok(())
}

#[test]
fn a_group_has_64_relations(rt: HostRuntime) -> Result<(), Fail> {
    let mut text = relations(rt.alloc(), 64, "10000")?;
    assert_eq!(rt; fault_of(rt.alloc(), text.as_str()), None);
    write!(text, "[[group.relation]]\nto = 1\n")?;
    assert_eq!(rt; fault_of(rt.alloc(), text.as_str()), Some(fault(15, 3, 70)));
    let never = relations(rt.alloc(), 64, "\"never\"")?;
    assert_eq!(rt; fault_of(rt.alloc(), never.as_str()), None);
    let least = relations(rt.alloc(), 1, "0")?;
    assert_eq!(rt; fault_of(rt.alloc(), least.as_str()), None);
    Ok(())
}
