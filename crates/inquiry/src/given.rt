// What the reference gives for an answer.
use reference::Element;

/// What the reference gives for an answer.
#[derive(Drop)]
pub struct Given {
    /// The claim.
    pub claim: i64,
    /// The sheet.
    pub sheet: Vec<u8>,
    /// The whole tray after it.
    pub tray: Vec<Element>,
}
