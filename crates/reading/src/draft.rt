ghost use Rattle.std.specs.Prelude.{◌≡◌, length};
ghost use Rattle.std.specs.List.{AllByRecursion};
ghost use Rattle.std.proofs.Props.{props};
ghost use Rattle.book.specs.Books.{line_count};
ghost use Rattle.round.specs.Rounds.{book};
ghost use Rattle.reading.specs.Kinds.{kind as kind_as};
ghost use Rattle.reading.specs.Levels.{Flat};

use super::kind::Kind;
use super::level::Level;
use book::bounds::MOST_LINES;
use network::bounds::MOST_NODES;
use round::open_round::OpenRound;
use tables::table::Table;
use text::reader::Reader;

mod beginning;
mod holdings;
mod levels;
mod names;
mod offers;
mod sections;

// What has been read so far of a record, and what is left of its text.
// It stands beside `Record`, which keeps all rules; a draft keeps them not before its last line.
#[derive(Drop)]
pub(crate) struct Draft<'a> {
    reader: Reader<'a>,
    pub(crate) kind: Kind,
    pub(crate) round: OpenRound,
    pub(crate) units: Table<u32, MOST_LINES>,
    pub(crate) levels: Table<Level, MOST_NODES>,
    ghost counted: { length units ≡ line_count (book round).offers },
    ghost flat: { AllByRecursion (Flat (kind_as kind)) levels } by { Prim.hlevel props },
}
