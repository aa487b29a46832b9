//! What the tests share.

use cm_topo::{TopoFault, read_topology};
use std::alloc::Global;
use std::process::Abort;
use std::test::Fail;

/// A text behind a code and its first fault: the rule, 0 for a wrong shape, the part and the entry.
pub(crate) type Row = (&'static str, u8, u8, u16);

/// The fault of a rule, or of a wrong shape where the rule is 0.
pub(crate) fn fault(rule: u8, part: u8, entry: u16) -> TopoFault {
    if rule == 0 {
        return TopoFault::WrongShape { part, entry };
    }
    TopoFault::Rule { rule, part, entry }
}

/// The fault of a text.
pub(crate) fn fault_of(alloc: Global, text: &str) -> Option<TopoFault> {
    match read_topology(alloc, text.as_bytes()) {
        Ok(_) => None,
        Err(fault) => Some(fault),
    }
}

/// Asserts that the fault of each text, behind a code, is that one.
pub(crate) fn are_faults(rt: &impl Abort, alloc: Global, rows: &[Row]) -> Result<(), Fail> {
    for (text, rule, part, entry) in rows {
        let whole = format!(in alloc; "code = \"PS1\"\n{text}\n")?;
        let found = fault_of(alloc, whole.as_str());
        assert_eq!(rt; found, Some(fault(*rule, *part, *entry)), "{text}");
    }
    Ok(())
}
