use book::bounds::MOST_OFFERS;
use tables::table::Table;
use worth::money::Money;
use worth::money_then_weeks::MoneyThenWeeks;

// The worth of a record's allotment, by its kind.
#[derive(Clone, Copy, Debug, PartialEq, Eq)]
pub enum Total {
    Money(Money),
    MoneyThenWeeks(MoneyThenWeeks),
}

impl From<Money> for Total {
    ghost use Rattle.std.specs.Prelude.{◌≡◌};
    ghost use Rattle.record.specs.declared.passed.Total.TheVariants.{Money};

    ghost from_gives = { λ worth total. total ≡ Money worth };

    fn from(worth: Money) -> Total {
        Total::Money(worth)
    }
}

impl From<MoneyThenWeeks> for Total {
    ghost use Rattle.std.specs.Prelude.{◌≡◌};
    ghost use Rattle.record.specs.declared.passed.Total.TheVariants.{MoneyThenWeeks};

    ghost from_gives = { λ worth total. total ≡ MoneyThenWeeks worth };

    fn from(worth: MoneyThenWeeks) -> Total {
        Total::MoneyThenWeeks(worth)
    }
}

// What an offer comes to: its payoff in cents and its weeks got.
#[derive(Clone, Copy, Debug, Default, PartialEq, Eq)]
pub struct OfferResult {
    pub payoff: i64,
    pub weeks: u32,
}

impl From<(i64, u32)> for OfferResult {
    ghost use Rattle.std.specs.Prelude.{◌≡◌};

    ghost from_gives = { λ answer found. found ≡ record { payoff = answer.0; weeks = answer.1 } };

    fn from((payoff, weeks): (i64, u32)) -> OfferResult {
        OfferResult { payoff, weeks }
    }
}

// What check answers of a record that passes.
#[derive(Drop)]
pub struct Passed {
    pub worth: Total,
    pub offers: Table<OfferResult, MOST_OFFERS>,
}
