ghost use Rattle.std.specs.Prelude.{◌≡◌, length};
ghost use Rattle.std.specs.List.{AllByRecursion};
ghost use Rattle.std.proofs.Props.{props};
ghost use Rattle.book.specs.Books.{line_count};
ghost use Rattle.layout.specs.Records.{Valid};
ghost use Rattle.round.specs.Rounds.{book};
ghost use Rattle.reading.specs.Held.{held};
ghost use Rattle.reading.specs.Kinds.{kind as kind_as};
ghost use Rattle.reading.specs.Levels.{Flat};

use super::kind::Kind;
use super::level::Level;
use book::bounds::MOST_LINES;
use network::bounds::MOST_NODES;
use round::open_round::OpenRound;
use tables::table::Table;

mod calls;
mod parse;

// What a text reads as: the kind of worth, the round, the units on its lines one after the other, and the levels.
// The units lie beside the round and not in its lines, since a round takes offers without units.
#[derive(Drop)]
pub struct Record {
    kind: Kind,
    round: OpenRound,
    units: Table<u32, MOST_LINES>,
    levels: Table<Level, MOST_NODES>,
    ghost valid: { ∥ Valid (held kind (book round) units levels) ∥₁ },
    ghost counted: { length units ≡ line_count (book round).offers },
    ghost flat: { AllByRecursion (Flat (kind_as kind)) levels } by { Prim.hlevel props },
}
