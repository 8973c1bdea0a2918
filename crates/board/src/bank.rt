// A bank: a row of cells over memory that the caller supplies, for elements of any one kind. It has no model: behind one, the caller
// would know nothing of its memory once the bank is gone.
ghost use Rattle.std.specs.Prelude.{IfOk, IsTrue, ◌≡◌, ◌≤◌, ◌↔◌, [], length, take, slice_set};
ghost use Rattle.std.specs.List.{slice_get};
ghost use Rattle.board.specs.Banks.{reached, room_for, filled};
ghost use Rattle.board.specs.Answers.{kept_or, granted};

use refusal::Refusal;

/// A row of cells over memory that the caller supplies.
#[derive(Debug, Drop)]
pub struct Bank<'a, T> {
    cells: &'a mut [T],
}

/// Puts x into the first n cells of a slice, and leaves the others.
pub fn fill_cells<T: Copy>(cells: &mut [T], n: usize, x: T)
    requires { n ≤ length cells.old }
    ensures { cells.new ≡ filled n x cells.old }
{
    cells[..n].fill_with(|| x);
}

impl<'a, T: Copy> Bank<'a, T> {
    ghost use Rattle.board.specs.Banks.{cells_of, Rewritten};

    /// A bank over these cells, which stay as they are.
    pub fn new(cells: &'a mut [T]) -> Self
        ensures cells { cells_of result ≡ cells.old }
        ensures lender { result.cells.ghost_name ≡ cells.entry.ghost_name }
    {
        Bank { cells }
    }

    /// How many cells there are.
    pub fn len(&self) -> usize
        ensures { result ≡ length (cells_of self.now) }
    {
        self.cells().len()
    }

    /// Whether there is no cell.
    pub fn is_empty(&self) -> bool
        ensures { IsTrue result ↔ (cells_of self.now ≡ []) }
    {
        self.cells().is_empty()
    }

    /// All cells, to be read.
    pub fn cells(&self) -> &[T]
        ensures { result.now ≡ cells_of self.now }
    {
        &*self.cells
    }

    /// The first n cells, to be read; where there are fewer, it refuses with 12.
    pub fn front(&self, n: usize) -> Result<&[T], Refusal>
        ensures answer { granted result ≡ room_for n (cells_of self.now) }
        ensures cells { IfOk result (λ front. front.now ≡ take n (cells_of self.now)) }
        ensures length { IfOk result (λ front. length front.now ≡ n) }
    {
        self.cells.get(..n).ok_or(Refusal::BankShort)
    }

    /// What stands in cell i; nothing where there is no such cell.
    pub fn get(&self, i: usize) -> Option<T>
        ensures { result ≡ slice_get (cells_of self.now) i }
    {
        self.cells.get(i).copied()
    }

    /// Puts x into cell i; where there is no such cell, it refuses with 12 and nothing changes.
    pub fn put(&mut self, i: usize, x: T) -> Result<(), Refusal>
        ensures answer { result ≡ reached (cells_of self.old) i }
        ensures cells { Rewritten self.old self.new (slice_set (cells_of self.old) i x) }
    {
        if i >= self.cells.len() {
            return Err(Refusal::BankShort);
        }
        self.cells[i] = x;
        Ok(())
    }

    /// Puts x into every cell.
    pub fn fill(&mut self, x: T)
        ensures { Rewritten self.old self.new (filled (length (cells_of self.old)) x (cells_of self.old)) }
    {
        let n = self.cells.len();
        fill_cells(self.cells, n, x);
    }

    /// Puts x into the first n cells; where there are fewer, it refuses with 12 and nothing changes.
    pub fn fill_front(&mut self, n: usize, x: T) -> Result<(), Refusal>
        ensures answer { result ≡ room_for n (cells_of self.old) }
        ensures cells { Rewritten self.old self.new (kept_or result (cells_of self.old) (filled n x (cells_of self.old))) }
    {
        if self.cells.len() < n {
            return Err(Refusal::BankShort);
        }
        fill_cells(self.cells, n, x);
        Ok(())
    }
}
