// An offer as a round keeps it. Its lines stand in the round's table of lines from `first` on: the give lines, then the get lines.
// An entry that held its lines would need the heap, which no call of the library asks for.
// Limit 0 stands for withdrawn: so the exchange's records mark it, and the offer's own arc then carries nothing without a case more.
#[derive(Clone, Copy, Debug, Default, PartialEq, Eq)]
pub struct Entry {
    pub member: u32,
    pub limit: u32,
    pub first: u32,
    pub gives: u32,
    pub gets: u32,
}
