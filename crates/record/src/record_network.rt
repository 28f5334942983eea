use round::closed_round::ClosedRound;

mod as_network;
mod drawing;
mod filled;
mod flows;

pub use drawing::draw;

// The network of a record: that of its round, with the flows that its units fill in. It can only be read.
#[derive(Drop)]
pub struct RecordNetwork<W> {
    pub(crate) round: ClosedRound<W>,
}
