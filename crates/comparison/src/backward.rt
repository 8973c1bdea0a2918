// A question that fits no grid.
use reference::Ask;
use season::Range;

// A range that runs backward, as the product has it.
pub(crate) const BACKWARD: Range = Range { first: 9, last: 8 };

// The same as the reference has it.
pub(crate) const BACKWARD_ASK: Ask = Ask::Range(9, 8);
