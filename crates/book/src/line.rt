ghost use Rattle.std.specs.Prelude.{◌≡◌, ◌==◌};

// One line of an offer's side: an item, how many units of it at most, and the price of each in cents.
#[derive(Clone, Copy, Debug, Default, PartialEq, Eq)]
pub struct Line {
    pub item: u32,
    pub limit: u32,
    pub price: u32,
}

impl Line {
    // Whether it is of cash, which every round has as item 0.
    pub fn is_cash(self) -> bool
        ensures { result ≡ (self.item == 0) }
    {
        self.item == 0
    }
}
