ghost use Rattle.std.specs.Prelude.{◌≡◌, ◌≤◌, ◌⊎◌, pos, ◌+ℤ◌, ◌<ℤ◌, MatchOption};
ghost use Rattle.network.specs.Pushes.{ArcsPushed};

use flow::arc::Arc;
use tables::refusal::Refusal;
use tables::table::Table;

// The flow after a push, or nothing where it would leave 0 to the capacity. No amount is too large to ask for.
fn pushed_flow(flow: u32, capacity: u32, by: i64) -> Option<u32>
    ensures { MatchOption result (((pos flow +ℤ by) <ℤ pos 0) ⊎ (pos capacity <ℤ (pos flow +ℤ by))) (λ k. (pos k ≡ (pos flow +ℤ by)) × (k ≤ capacity)) }
{
    let sum = i64::from(flow).checked_add(by)?;
    u32::try_from(sum).ok().filter(|k| *k <= capacity)
}

// What push does for a network that keeps its arcs in a table.
pub fn push<const N: usize>(arcs: &mut Table<Arc, N>, arc: u32, by: i64) -> Result<(), Refusal>
    ensures { ArcsPushed arcs.old arcs.new arc by result }
{
    let i = arc as usize;
    let found = arcs.get(i).ok_or(Refusal::Unknown)?;
    let flow = pushed_flow(found.flow, found.capacity, by).ok_or(Refusal::Rule)?;
    arcs.set(i, found.with_flow(flow))
}
