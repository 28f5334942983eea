ghost use Rattle.record.specs.Networks.{record_net};
ghost use Rattle.round.specs.Carrying.{sound_closed};

use super::RecordNetwork;
use flow::arc::Arc;
use network::readable::Network;
use tables::refusal::Refusal;
use worth::kind::Worth;

impl<W: Worth> Network for RecordNetwork<W> {
    ghost net = { λ x. record_net x };

    ghost sound = { λ x. sound_closed x.round };

    fn counts(&self) -> (u32, u32) {
        self.round.counts()
    }

    fn arc(&self, i: u32) -> Result<Arc, Refusal> {
        self.round.arc(i)
    }
}
