// The ledger.
use crate::moves::Move;
use crate::refusal::Refusal;
use crate::standing::Standing;
use crate::stop::Stop;
use std::alloc::{AllocError, Global};
use std::collections::BTreeMap;

/// Which moves count, and what they come to, cell by cell.
#[derive(Drop)]
pub struct Ledger {
    standing: Standing,
    counts: BTreeMap<u64, i64>,
}

impl Ledger {
    /// A ledger of no moves, for an allowed grid; another is refused with 10.
    pub fn open(heap: Global, rows: u64, columns: u64, limit: u64) -> Result<Ledger, Refusal> {
        Ok(Ledger {
            standing: Standing::open(rows, columns, limit)?,
            counts: BTreeMap::new(heap),
        })
    }

    /// How it stands.
    pub fn standing(&self) -> Standing {
        self.standing
    }

    /// The count of a cell: what the accepted moves there add up to.
    pub fn count(&self, cell: u64) -> i64 {
        self.counts.get(&cell).copied().unwrap_or(0)
    }

    /// Accepts a move. Refused with 1, 2, 3, and nothing changes.
    pub fn note(&mut self, m: Move) -> Result<(), Stop> {
        self.standing.test(m)?;
        let count = self.count(m.cell).wrapping_add(m.amount);
        self.counts.insert(m.cell, count)?;
        self.standing = self.standing.after(m);
        Ok(())
    }

    /// The counts of all cells, in order.
    pub fn all_counts(&self, heap: Global) -> Result<Vec<i64>, AllocError> {
        (0..self.standing.cells())
            .map(|cell| self.count(cell))
            .collect(heap)
    }
}
