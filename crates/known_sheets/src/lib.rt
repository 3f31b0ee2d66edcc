//! Sheets whose answers are known, and one statement of all of them. The theorem is the contract of a function,
//! which computes nothing.
#![tactic(auto)]

ghost use Rattle.known_sheets.specs.Table.{KnownSheets};

/// Of each text in the table it is printed what stands there, each check answers what stands there, and so many
/// copies have what stands there.
pub fn known_sheets()
    ensures { KnownSheets }
{}
