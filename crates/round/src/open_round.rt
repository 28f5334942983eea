ghost use Rattle.std.specs.Prelude.{◌≡◌, true, length};
ghost use Rattle.book.specs.Books.{Sound};
ghost use Rattle.round.specs.Kept.{book_of, in_rows};

use super::entry::Entry;
use book::bounds::{MOST_HOLDINGS, MOST_ITEMS, MOST_LINES, MOST_MEMBERS, MOST_OFFERS};
use book::holding::Holding;
use book::line::Line;
use tables::table::Table;
use terms::name::Name;

mod arcs;
mod holdings;
mod names;
mod offers;
mod opening;
mod views;
mod withdrawal;

// A round that takes items, members, holdings and offers.
#[derive(Drop)]
pub struct OpenRound {
    items: Table<Name, MOST_ITEMS>,
    members: Table<Name, MOST_MEMBERS>,
    holdings: Table<Holding, MOST_HOLDINGS>,
    offers: Table<Entry, MOST_OFFERS>,
    lines: Table<Line, MOST_LINES>,
    ghost sound: { ∥ Sound (book_of items members holdings offers lines) ∥₁ },
    ghost rows: { in_rows 0 offers (length lines) ≡ true },
}
