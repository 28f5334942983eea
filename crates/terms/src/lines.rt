ghost use Rattle.std.specs.Prelude.{◌≡◌, ◌<◌, ◌≤◌, map, Decides};
ghost use Rattle.std.specs.List.{ContainsAt as Has};
ghost use Rattle.book.specs.Books.{Any, Twice, Loop, item_of};
ghost use Rattle.terms.specs.Lines.{EitherSide, Out};

use book::bounds::{HIGHEST_PRICE, MOST_UNITS};
use book::line::Line;

// Whether the limit is not 1 to 1,000.
pub fn is_out(limit: u32) -> bool
    ensures { Decides result (Out limit) }
{
    limit < 1 || MOST_UNITS < limit
}

// Both sides are parameters, since the view of an offer belongs to `round`, above this crate. Each test is one chain; a function over
// what is tested would be as long as they are.

// Whether some line of either side is of an item that is none of so many.
pub fn has_unknown_item(items: usize, give: &[Line], get: &[Line]) -> bool
    ensures { Decides result (EitherSide (λ l. items ≤ l.item) give.now get.now) }
{
    give.iter().chain(get).any(|l| items <= l.item as usize)
}

// Whether some line of either side has a limit out of bounds.
pub fn has_line_out(give: &[Line], get: &[Line]) -> bool
    ensures { Decides result (EitherSide (λ l. Out l.limit) give.now get.now) }
{
    give.iter().chain(get).any(|l| is_out(l.limit))
}

// Whether some line of either side has a price above 1,000,000.
pub fn is_overpriced(give: &[Line], get: &[Line]) -> bool
    ensures { Decides result (EitherSide (λ l. 1000000 < l.price) give.now get.now) }
{
    give.iter().chain(get).any(|l| HIGHEST_PRICE < l.price)
}

// Whether some line is of cash above this price.
fn has_cash_above(ls: &[Line], price: u32) -> bool
    ensures { Decides result (Any (λ w. (w.item ≡ 0) × (price < w.price)) ls.now) }
{
    ls.iter().any(|w| w.is_cash() && price < w.price)
}

// Whether cash is given at a lower price than got.
pub fn is_loop(give: &[Line], get: &[Line]) -> bool
    ensures { Decides result (Loop give.now get.now) }
{
    give.iter()
        .any(|g| g.is_cash() && has_cash_above(get, g.price))
}

// Whether some line is of this item.
pub fn has_item(ls: &[Line], item: u32) -> bool
    ensures { Decides result (Has (map item_of ls.now) item) }
{
    ls.iter().map(|l| l.item).any(|i| i == item)
}

// Whether an item stands twice: some line is of the item of a line before it. Its number is what parts off the lines before it.
pub fn is_doubled(ls: &[Line]) -> bool
    ensures { Decides result (Twice (map item_of ls.now)) }
{
    ls.iter()
        .enumerate()
        .any(|(j, l)| has_item(&ls[..j], l.item))
}
