//! What host and box agree on when a question is asked of a grid:
//! whether it suits, what its sheet has to state, and the image of a claim.
#![tactic(auto)]

mod suited;
mod terms;

pub use suited::{Suited, suited_degree};
pub use terms::{claim_image, terms_of};
