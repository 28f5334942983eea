ghost use Rattle.std.specs.Prelude.{◌≡◌, ◌≤◌, [], ◌∷◌, length};
ghost use Rattle.tables.specs.Tables.{Found, Replaced, Added};

use super::super::refusal::Refusal;
use super::Table;

// A table without entries.
impl<T: Copy + Default, const N: usize> Default for Table<T, N> {
    ghost is_default = { λ t. t ≡ [] };

    fn default() -> Self {
        Table::new(T::default())
    }
}

impl<T: Copy, const N: usize> Table<T, N> {
    // A table without entries. The filler only lies in the unused cells.
    pub fn new(filler: T) -> Self
        ensures { result ≡ [] }
    {
        Table {
            cells: [filler; N],
            len: 0,
        }
    }

    pub fn len(&self) -> usize
        ensures count { result ≡ length self.now }
        ensures bound { result ≤ N }
    {
        // the bound is known where a field is looked at
        let _ = &self.len;
        self.as_slice().len()
    }

    // The entries themselves, to be gone through in order.
    pub fn as_slice(&self) -> &[T]
        ensures { result.now ≡ self.now }
    {
        let cells = &self.cells[..];
        &cells[0..self.len]
    }

    // Entry i, or nothing where there is none.
    pub fn get(&self, i: usize) -> Option<T>
        ensures { Found self.now i result }
    {
        self.as_slice().get(i).copied()
    }

    // Puts x in the place of entry i. What is put back is a whole entry, so there is no `get_mut` beside it.
    pub fn set(&mut self, i: usize, x: T) -> Result<(), Refusal>
        ensures { Replaced self.old self.new i x result }
    {
        if i < self.len {
            self.cells[i] = x;
            Ok(())
        } else {
            Err(Refusal::Unknown)
        }
    }

    // Adds x at the end.
    pub fn push(&mut self, x: T) -> Result<(), Refusal>
        ensures { Added N self.old self.new (x ∷ []) result }
    {
        let at = self.len;
        if at < N {
            self.cells[at] = x;
            self.len = at + 1;
            Ok(())
        } else {
            Err(Refusal::Full)
        }
    }

    // Adds all of `more` at the end, in order, or none of it.
    pub fn extend(&mut self, more: &[T]) -> Result<(), Refusal>
        ensures { Added N self.old self.new more.now result }
    {
        let at = self.len;
        if more.len() > N - at {
            return Err(Refusal::Full);
        }
        let cells = &mut self.cells[..];
        cells[at..at + more.len()].copy_from_slice(more);
        self.len = at + more.len();
        Ok(())
    }
}
