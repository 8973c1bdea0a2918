//! Writing texts by their forms, and sheets, onto paper of the caller's:
//! what is written is read back.
#![tactic(auto)]

mod laws;
mod limits;
mod measure;
mod pen;
mod put;
mod spaces;
mod writer;

pub use laws::{forms_read_back, reads_back, text_fits};
pub use limits::{ENOUGH_PAPER, MOST_VALUES};
pub use pen::Pen;
pub use writer::write_sheet;
