//! Questions asked of both ends once they are sealed, in the product and in the reference: what a question says of
//! itself, its answer, and its sheet, honest, false and damaged, read, judged and written.
#![tactic(auto)]

mod answers;
mod given;
mod inquiry;
mod judgements;
mod meanings;
mod questions;
mod room;
mod sealed;
mod sealed_host;
mod sealed_verifier;
mod stated;
mod writings;

pub use given::Given;
pub use inquiry::Inquiry;
pub use questions::inquire_any;
pub use room::Room;
pub use sealed::Sealed;
pub use sealed_host::SealedHost;
pub use sealed_verifier::SealedVerifier;
pub use stated::Stated;
