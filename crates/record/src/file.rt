ghost use Rattle.std.specs.Prelude.{◌<◌, map, IfErr, Decides};
ghost use Rattle.book.specs.Books.{Any};
ghost use Rattle.reading.specs.Levels.{numbers};
ghost use Rattle.round.specs.Closed.{closed_book, closed_allotment, closed_net};
ghost use Rattle.record.specs.Evidence.{Evidence};
ghost use Rattle.record.specs.Files.{Files, Roomy, Evident};

use super::levelled::Levelled;
use draft::Draft;
use network::bounds::LARGEST_SIZE;
use network::readable::Network;
use round::closed_round::ClosedRound;
use tables::refusal::Refusal;
use worth::kind::Worth;

mod draft;
mod lines;
mod offers;
mod sections;

// Whether some worth has a size over 1,000,000, as the refusal says it. By way of network's test, whether all are within, it would want a lemma more.
fn is_over<W: Worth>(worths: &[W]) -> bool
    ensures { Decides result (Any (λ w. 1000000 < W.Worth.ops.size w) worths.now) }
{
    worths.iter().any(|w| !w.is_within(LARGEST_SIZE))
}

// Writes the record of a round, its allotment and levels to the start of a page, and answers its length.
pub fn file<W: Levelled>(
    round: &ClosedRound<W>,
    levels: &[W],
    page: &mut [u8],
) -> Result<usize, Refusal>
    ensures outcome { Files W.Levelled.sort (closed_book round.now) (closed_allotment round.now) (map (λ w. numbers W.Levelled.sort (W.Levelled.level w)) levels.now) page.old page.new result }
    ensures roomy { IfErr result (Roomy page.old) }
    ensures evident { Evident W.Worth.ops W.Levelled.sort (closed_book round.now) (closed_allotment round.now) (closed_net round.now) levels.now (map (λ w. numbers W.Levelled.sort (W.Levelled.level w)) levels.now) page.new result }
    ensures law { Evidence }
{
    let (nodes, _) = round.counts();
    let nodes = nodes as usize;
    let first = &levels[..nodes.min(levels.len())];
    if is_over(first) {
        return Err(Refusal::Bounds);
    }
    if first.len() < nodes {
        return Err(Refusal::Short);
    }
    Draft::of(round, first).text.copy_to(page)
}
