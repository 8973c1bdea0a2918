// Refusals in plain numbers.
use reference::{Position, Stop};

// The number for no memory, which no refusal has.
const NO_MEMORY: u64 = 63;

/// A refusal, of the product or of the reference, which share no type: its number, and where a sheet's fault lies.
#[derive(Clone, Copy, PartialEq, Eq, Debug)]
pub struct Refused {
    /// Its number in the table of refusals; 63, which stands for none there, where the reference had no memory.
    pub number: u64,
    /// Where the sheet's fault lies, if it is one.
    pub position: Option<Position>,
}

impl From<refusal::Refusal> for Refused {
    fn from(refusal: refusal::Refusal) -> Refused {
        Refused {
            number: u64::from(refusal.number()),
            position: refusal.position().map(|(line, place)| Position {
                line: line as u64,
                place: place as u64,
            }),
        }
    }
}

impl From<reference::Refusal> for Refused {
    fn from(refusal: reference::Refusal) -> Refused {
        Refused {
            number: refusal.number(),
            position: refusal.position(),
        }
    }
}

impl From<Stop> for Refused {
    fn from(stop: Stop) -> Refused {
        match stop {
            Stop::Refused(refusal) => Refused::from(refusal),
            Stop::Memory(_) => Refused {
                number: NO_MEMORY,
                position: None,
            },
        }
    }
}
