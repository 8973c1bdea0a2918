//! Sheets: what a sheet is, line by line, and reading one into a tray.
//! Reading and writing follow the same lines.
#![tactic(auto)]

mod laws;
mod lines;
mod sheet;
mod terms;

pub use laws::{reads_allowed, reads_sheets, refuses_sheets, tells_first};
pub use lines::{claim_line, end_line, sheet_line, value_line};
pub use sheet::read_sheet;
pub use terms::Terms;
