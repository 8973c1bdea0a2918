// The sizes of a game.

/// The sizes of a game: its board, what its banks have, and how much is done.
#[derive(Clone, Copy, PartialEq, Eq, Debug)]
pub struct Plan {
    /// The rows of the board.
    pub rows: u64,
    /// The columns of the board.
    pub columns: u64,
    /// The cells of the banks beyond those that are needed; −1: one too few.
    pub spare: i64,
    /// How many moves the ends are told.
    pub moves: u64,
    /// How many questions they are asked.
    pub questions: u64,
    /// How often each sheet is damaged, respaced and falsified.
    pub sheets: u64,
}

impl Plan {
    /// A game on the largest board.
    pub const LARGEST: Plan = Plan {
        rows: 64,
        columns: 1024,
        spare: 0,
        moves: 100,
        questions: 1,
        sheets: 1,
    };

    /// A game of some moves and questions on a board of this shape.
    pub fn shaped(rows: u64, columns: u64) -> Plan {
        Plan {
            rows,
            columns,
            spare: 2,
            moves: 60,
            questions: 3,
            sheets: 2,
        }
    }

    /// How many cells the host's bank has; no more than the largest board, and the spare ones.
    pub fn host_cells(self) -> u64 {
        let cells = self.rows.saturating_mul(self.columns).min(65_536);
        cells.saturating_add_signed(self.spare)
    }

    /// How many cells the box's bank has; no more than the largest board has columns, and the spare ones.
    pub fn verifier_cells(self) -> u64 {
        self.columns.min(1024).saturating_add_signed(self.spare)
    }
}
