ghost use Rattle.std.specs.Prelude.{◌<◌, ◌≤◌, length};

use flow::arc::Arc;

// Numbers that look random and are the same in each run and with each kit.
#[derive(Clone, Copy)]
pub(crate) struct Random {
    state: u64,
}

impl Random {
    pub(crate) fn new(state: u64) -> Self {
        Random { state }
    }

    // The high bits of a linear congruential sequence.
    fn next(&mut self) -> u32 {
        self.state = self
            .state
            .wrapping_mul(6364136223846793005)
            .wrapping_add(1442695040888963407);
        (self.state >> 33) as u32
    }

    fn below(&mut self, bound: u32) -> u32
        requires { 0 < bound }
        ensures { result < bound }
    {
        self.next() % bound
    }

    // An arc of a network of so many nodes, with nothing on it.
    fn arc(&mut self, nodes: u32) -> Arc
        requires { 0 < nodes }
    {
        Arc::new(
            self.below(nodes),
            self.below(nodes),
            self.below(3),
            i64::from(self.below(7)) - 3,
            self.below(2),
        )
    }

    // Up to five arcs between up to four nodes, parallel ones and loops among them, at the start of the room that is lent. It is lent, since
    // this call may not fail, and a `Vec` could, for want of memory.
    pub(crate) fn arcs<'a>(&mut self, room: &'a mut [Arc; 5]) -> &'a mut [Arc]
        ensures { length result.now ≤ 5 }
    {
        let nodes = self.below(4) + 1;
        // one arc more is drawn first, and left out
        let _ = self.arc(nodes);
        for arc in room.iter_mut() {
            *arc = self.arc(nodes);
        }
        &mut room[..self.below(6) as usize]
    }
}
