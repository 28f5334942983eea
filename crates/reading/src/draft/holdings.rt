ghost use Rattle.std.specs.Prelude.{◌<◌, length, slice_index};
ghost use Rattle.round.specs.Rounds.{book};
ghost use Rattle.reading.specs.Bounds.{Clamped};
ghost use Rattle.reading.specs.Drafts.{so_far, Gains};
ghost use Rattle.reading.specs.Holdings.{HoldsFirst};
ghost use Rattle.reading.specs.declared.entry.Entry.TheVariants.{Holding as AHolding};

use super::super::bounds::clamp;
use super::super::next::next_row;
use super::Draft;
use book::bounds::MOST_UNITS;
use book::holding::Holding;
use round::open_round::OpenRound;
use tables::refusal::Refusal;
use text::fault::{Fault, at_line};

// A new holding of the round: the first for its member and item.
// Units over 1,000 are tested here, though the round tests them again: out of bounds is refused before a double, and the round refuses no double.
fn hold_first(round: &mut OpenRound, h: Holding) -> Result<(), Refusal>
    requires { length (book round.old).holdings < 128 }
    ensures { HoldsFirst (book round.old) (book round.new) h result }
{
    let held = round.holding(h.member, h.item)?;
    if h.units > MOST_UNITS {
        return Err(Refusal::Bounds);
    }
    if held.is_some() {
        return Err(Refusal::Double);
    }
    round.hold(h.member, h.item, h.units)
}

// The holding that a row says, in numbers of 32 bits. It is no `From`, since both types are of other crates.
fn clamped(row: [u64; 3]) -> Holding
    ensures { Clamped (slice_index row 0) result.member × Clamped (slice_index row 1) result.item × Clamped (slice_index row 2) result.units }
{
    let [member, item, units] = row;
    Holding {
        member: clamp(member),
        item: clamp(item),
        units: clamp(units),
    }
}

impl Draft<'_> {
    // The next line under H, as one more holding of the round.
    // It does not go through `Numbered::test`: of a closure that holds the round its caller learns the result, and not the round that it leaves,
    // so the proof did not close.
    pub(super) fn next_holding(&mut self) -> Result<(), Fault>
        requires { length (so_far self.old).holdings < 128 }
        ensures { Gains AHolding 1 self.old self.new result }
    {
        let row = next_row::<u64, 3>(&mut self.reader)?;
        at_line(row.line, hold_first(&mut self.round, clamped(row.said)))
    }
}
