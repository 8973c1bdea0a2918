//! The whole product a second time, naively: every rule straight from its words, in plain numbers, pairs and vectors.
//! It shares no code with the product; the crates above hold the answers of the two against each other.
#![tactic(auto)]

mod answered;
mod answering;
mod arithmetic;
mod ask;
mod element;
mod ends;
mod fault;
mod front;
mod game;
mod interpolation;
mod judging;
mod ledger;
mod limits;
mod moves;
mod numbers;
mod piece;
mod position;
mod reading;
mod refusal;
mod rules;
mod sheet;
mod standing;
mod stop;
mod tag;
mod text;
mod want;
mod wants;

pub use answered::Answered;
pub use arithmetic::Arithmetic;
pub use ask::Ask;
pub use element::Element;
pub use ends::{note_at_host, note_at_verifier, open_host, open_verifier};
pub use fault::Fault;
pub use game::Game;
pub use interpolation::value_at;
pub use ledger::Ledger;
pub use limits::Limits;
pub use moves::Move;
pub use numbers::{GOODS, GREATEST_DEGREE, PAPER};
pub use position::Position;
pub use refusal::Refusal;
pub use sheet::Sheet;
pub use standing::Standing;
pub use stop::Stop;
pub use tag::Tag;
