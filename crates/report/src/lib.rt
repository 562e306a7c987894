// The report.
#![tactic(auto)]

mod write;

pub use write::write_report;

// The last stop number that a report may show: C hands in any.
pub const LAST_NUMBER: usize = 22;
