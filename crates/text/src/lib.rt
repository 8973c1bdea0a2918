//! Texts read by their forms: tokens with their lines and places, a reader that goes over them,
//! the items of which each line of a form is a list, and the laws of every form.
#![tactic(auto)]

mod found;
mod item;
mod keyword;
mod laws;
mod reader;
mod run;
mod token;

pub use found::Found;
pub use item::Item;
pub use keyword::Keyword;
pub use laws::{reads_forms, refuses_forms, tells_breaks};
pub use reader::Reader;
pub use token::Token;
