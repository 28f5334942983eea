// What a member holds of an item.
#[derive(Clone, Copy, Debug, Default, PartialEq, Eq)]
pub struct Holding {
    pub member: u32,
    pub item: u32,
    pub units: u32,
}
