ghost use Rattle.std.specs.Prelude.{◌≡◌};
ghost use Rattle.flow.specs.Arcs.{fresh, with_flow};

// An arc of a network, with what flows on it.
#[derive(Clone, Copy, Debug, Default, PartialEq, Eq)]
pub struct Arc {
    pub from: u32,
    pub to: u32,
    pub capacity: u32,
    pub flow: u32,
    pub price: i64,
    pub weeks: u32,
}

impl Arc {
    // An arc on which nothing flows. It takes the five numbers apart, since it is what makes one value of them.
    pub fn new(from: u32, to: u32, capacity: u32, price: i64, weeks: u32) -> Arc
        ensures { result ≡ fresh from to capacity price weeks }
    {
        Arc {
            from,
            to,
            capacity,
            flow: 0,
            price,
            weeks,
        }
    }

    // The arc with so much flowing on it.
    pub fn with_flow(self, flow: u32) -> Arc
        ensures { result ≡ with_flow flow self }
    {
        Arc { flow, ..self }
    }
}
