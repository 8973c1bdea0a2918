// How often a call came to what.

// The numbers of refusals are below this.
const BEYOND: usize = 64;

// How often a call was granted, and how often it came to each refusal's number.
#[derive(Clone, Copy)]
pub(crate) struct Counts {
    granted: u64,
    refused: [u64; BEYOND],
}

impl Counts {
    pub(crate) fn new() -> Counts {
        Counts {
            granted: 0,
            refused: [0; BEYOND],
        }
    }

    // Counts a call that was granted, or a refusal's number.
    pub(crate) fn add(&mut self, came: Result<(), u64>) {
        match came {
            Ok(()) => self.granted = self.granted.saturating_add(1),
            Err(number) => {
                if let Some(count) = self.refused.get_mut(number as usize) {
                    *count = count.saturating_add(1);
                }
            }
        }
    }

    pub(crate) fn granted(&self) -> u64 {
        self.granted
    }

    // How often a refusal's number came.
    pub(crate) fn refused(&self, number: u64) -> u64 {
        self.refused.get(number as usize).copied().unwrap_or(0)
    }
}
