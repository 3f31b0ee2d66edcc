//! Plant sheets: the tables of a netlist, in memory that is reserved once, and sheets, which can only be read. Each
//! step tests for itself whether it can be made. Nothing here knows of calls, drafts or refusals.
#![tactic(auto)]

pub mod counts;
mod laws;
pub mod sheets;
pub mod tables;
pub mod views;

pub use counts::Counts;
pub use sheets::Sheet;
pub use tables::Tables;
pub use views::LawView;
