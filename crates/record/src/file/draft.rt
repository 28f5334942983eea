ghost use Rattle.std.specs.Prelude.{◌≡◌, ◌≤◌, length, map, take};
ghost use Rattle.layout.specs.Records.{contents_of};
ghost use Rattle.layout.specs.Render.{render};
ghost use Rattle.reading.specs.Levels.{numbers};
ghost use Rattle.round.specs.Closed.{closed_book, closed_allotment};

use super::super::levelled::Levelled;
use round::closed_round::ClosedRound;
use text::buffer::Buffer;
use text::section::Section;

// A record in the making, line by line. `few` is what the buffer keeps, which from outside it only a call would show.
#[derive(Drop)]
pub(super) struct Draft {
    pub text: Buffer,
    ghost few: { length text ≤ 32768 },
}

impl Draft {
    // The record of a round, its allotment and these levels, section by section, as far as it fits.
    pub(super) fn of<W: Levelled>(round: &ClosedRound<W>, levels: &[W]) -> Draft
        ensures { result.text ≡ take 32768 (render (contents_of W.Levelled.sort (closed_book round.now) (closed_allotment round.now) (map (λ w. numbers W.Levelled.sort (W.Levelled.level w)) levels.now))) }
    {
        let mut draft = Draft {
            text: Buffer::new(),
        };
        let terms = round.terms();
        draft.kind(W::kind());
        draft.names(Section::Items, terms.item_names());
        draft.names(Section::Members, terms.member_names());
        draft.holdings(terms.held());
        draft.offers(round);
        draft.levels(levels);
        draft
    }
}
