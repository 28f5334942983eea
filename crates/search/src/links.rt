// The links of a search, and the way up along them.
ghost use Rattle.std.specs.Prelude.{◌≡◌, ◌≤◌, length};
ghost use Rattle.search.specs.Links.{link, climb, after};

use super::residual::Residual;
use flow::step::Step;

// For each node the step by which its potential was raised last, or none.
#[derive(Clone, Copy)]
pub(crate) struct Links<'a> {
    pub(crate) net: Residual<'a>,
    pub(crate) last: &'a [Option<Step>],
    ghost long: { net.nodes ≤ length last.now },
}

// The steps from one on up along the links, to a goal or a root, and no more than there are links. It counts what is left itself:
// `take` of `successors` would have a type that no field can name.
#[derive(Drop)]
pub(crate) struct Ascent<'a> {
    links: Links<'a>,
    next: Option<Step>,
    goal: usize,
    left: usize,
}

impl<'a> Iterator for Ascent<'a> {
    ghost use Rattle.std.specs.Iterator.{YieldsFirst, item_count};
    ghost use Rattle.search.specs.Ascents.{steps_left};

    type Item = Step;

    ghost next_gives = { YieldsFirst steps_left };

    ghost remaining = { item_count steps_left };

    fn next(&mut self) -> Option<Step> {
        let step = self.next?;
        self.left = self.left.checked_sub(1)?;
        self.next = self.links.onward(step, self.goal);
        Some(step)
    }
}

impl<'a> Links<'a> {
    ghost use Rattle.search.specs.Ascents.{steps_left};

    // The link of a node.
    fn of(self, node: usize) -> Option<Step>
        ensures { result ≡ link self.entry.last.now node }
    {
        *self.last.get(node)?
    }

    // The step after one on the way up, or none at the goal or a root.
    fn onward(self, step: Step, goal: usize) -> Option<Step>
        ensures { result ≡ after self.entry.net.arcs.now self.entry.last.now goal step }
    {
        let node = self.net.tail(step);
        if node == goal {
            return None;
        }
        self.of(node)
    }

    // The steps from `first` on up, to the goal or a root.
    pub(crate) fn ascent(self, first: Option<Step>, goal: usize) -> Ascent<'a>
        ensures { steps_left result ≡ climb self.entry.net.arcs.now self.entry.last.now goal first (length self.entry.last.now) }
    {
        Ascent {
            links: self,
            next: first,
            goal,
            left: self.last.len(),
        }
    }
}
