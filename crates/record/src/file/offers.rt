ghost use Rattle.std.specs.Prelude.{◌≡◌, ◌<◌, [], ◌∷◌, length};
ghost use Rattle.book.specs.Books.{offer_at};
ghost use Rattle.book.specs.Rows.{map_with};
ghost use Rattle.layout.specs.Records.{fill_line, fill_offer};
ghost use Rattle.layout.specs.Render.{offers_lines, offers_section};
ghost use Rattle.round.specs.Closed.{closed_book, closed_allotment};
ghost use Rattle.round.specs.Questions.{lines_on, units_on};
ghost use Rattle.record.specs.Writing.{Adds, side_lines};

use super::draft::Draft;
use book::line::Line;
use book::side::Side;
use round::closed_round::ClosedRound;
use text::section::Section;
use worth::kind::Worth;

impl Draft {
    // The lines of a side of an offer, with the units on them, which a closed round answers by the line's number.
    fn side<W: Worth>(&mut self, round: &ClosedRound<W>, offer: u32, side: Side, lines: &[Line])
        requires { (offer < length (closed_book round.now).offers) × (lines.now ≡ lines_on side (offer_at (closed_book round.now) offer)) }
        ensures { Adds self.old.text self.new.text (side_lines (map_with fill_line lines.now (units_on side (closed_allotment round.now offer)))) }
    {
        for (i, line) in lines.iter().enumerate() {
            let units = round.units(offer, side, i as u32).unwrap();
            self.row(&[line.item, line.limit, line.price, units].map(u64::from));
        }
    }

    // The head of an offer, and under it the lines of both sides.
    fn offer<W: Worth>(&mut self, round: &ClosedRound<W>, offer: u32)
        requires { offer < length (closed_book round.now).offers }
        ensures { Adds self.old.text self.new.text (offers_lines (fill_offer (offer_at (closed_book round.now) offer) (closed_allotment round.now offer) ∷ [])) }
    {
        let found = round.terms().offer_at(offer).unwrap();
        let row = [
            u64::from(found.member),
            u64::from(found.limit),
            found.give.len() as u64,
            found.get.len() as u64,
        ];
        self.row(&row);
        self.side(round, offer, Side::Give, found.give);
        self.side(round, offer, Side::Get, found.get);
    }

    // The section of the offers, by their numbers, since a closed round answers the units on an offer's lines by its number.
    pub(super) fn offers<W: Worth>(&mut self, round: &ClosedRound<W>)
        ensures { Adds self.old.text self.new.text (offers_section (map_with fill_offer (closed_book round.now).offers (closed_allotment round.now))) }
    {
        let count = round.terms().offer_count();
        self.head(Section::Offers, count as usize);
        for k in 0..count {
            self.offer(round, k);
        }
    }
}
