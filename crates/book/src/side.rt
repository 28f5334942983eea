// The two sides of an offer.
#[derive(Clone, Copy, Debug, PartialEq, Eq)]
pub enum Side {
    Give,
    Get,
}
