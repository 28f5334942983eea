ghost use Rattle.std.specs.Prelude.{◌≡◌, [], ◌∷◌, length, OnOk};
ghost use Rattle.tables.specs.Refusals.{when, First, refusal};
ghost use Rattle.reading.specs.Contents.{contents};
ghost use Rattle.round.specs.Closed.{closed_book, closed_net};
ghost use Rattle.record.specs.Flows.{Empty, with_flows};
ghost use Rattle.record.specs.Networks.{Exceeds, Drawn};

use super::RecordNetwork;
use super::flows::flows_of;
use network::improvable::Improvable;
use reading::record::Record;
use round::closed_round::ClosedRound;
use tables::refusal::Refusal;
use worth::kind::Worth;

// Puts the flows on the arcs of a round with no flow, one by one. A push names its arc by its number.
fn fill<W: Worth>(round: &mut ClosedRound<W>, flows: &[u32]) -> Result<(), Refusal>
    requires empty { Empty (closed_net round.old) }
    requires long { length flows.now ≡ length (closed_net round.old).arcs }
    ensures refused { First (when 15 (Exceeds (with_flows (closed_net round.old) flows.now)) ∷ []) (refusal result) }
    ensures outcome { OnOk result (closed_net round.new ≡ with_flows (closed_net round.old) flows.now) }
    ensures kept { closed_book round.new ≡ closed_book round.old }
{
    for (i, flow) in flows.iter().enumerate() {
        round.push(i as u32, i64::from(*flow))?;
    }
    Ok(())
}

// The network of a record: that of its round, with the flows that its units fill in; refused where one exceeds its capacity.
pub fn draw<W: Worth>(record: Record) -> Result<RecordNetwork<W>, Refusal>
    ensures { Drawn (contents «record») result }
{
    let flows = flows_of(&record);
    let mut round = record.into_round().close::<W>();
    fill(&mut round, flows.as_slice())?;
    Ok(RecordNetwork { round })
}
