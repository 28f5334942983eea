// A residual step: an arc followed forward, where capacity is left, or backward, where something flows.
#[derive(Clone, Copy, Debug, PartialEq, Eq)]
pub enum Step {
    Forward(usize),
    Backward(usize),
}
