use std::marker::Model;

mod calls;

// A list of at most N entries. It is held in place, with its length beside it, since no call of the library may fail for want of memory.
// The kit's `ArrayVec` would hold the same two parts; what the calls here add to them is the exchange's refusals.
// There is no `FromIterator`: an iterator may give more than N entries, and what collects them cannot refuse. So tables are filled push by push.
#[derive(Drop)]
pub struct Table<T, const N: usize> {
    cells: [T; N],
    len: usize,
}

// Contracts see a table as the list of its entries; the cells past them are never read.
impl<T, const N: usize> Model for Table<T, N> {
    ghost use Rattle.std.specs.Prelude.{◌≡◌, ◌≤◌, List, length, take};

    ghost Value = { List T };

    ghost view = { λ t. take t.len t.cells };

    ghost invariant = { λ t. (length t.cells ≡ N) × (t.len ≤ N) };
}
