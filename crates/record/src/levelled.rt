ghost use Rattle.std.specs.Prelude.{◌≡◌, pos, refl};
ghost use Rattle.std.proofs.Common.{sym, subst};
ghost use Rattle.worth.specs.Money.{of_cents};
ghost use Rattle.worth.specs.Weeks.{of_count};
ghost use Rattle.layout.specs.Records.{Kind as Sort, by_money, by_money_then_weeks};
ghost use Rattle.reading.specs.Kinds.{kind as kind_as};
ghost use Rattle.reading.specs.declared.level.Level.{Level as Numbers};
ghost use Rattle.record.specs.Levels.{Levelled as Told};
ghost use Rattle.worth.specs.Money as SpecsMoney;
ghost use Rattle.network.specs.Potentials.{Fitted};
ghost use Rattle.record.specs.Worths.{amounts_again, pairs_again};
ghost use Rattle.worth.specs.Lexicographic.{pile};
ghost use Rattle.worth.specs.Weeks as SpecsWeeks;

use reading::kind::Kind;
use reading::level::Level;
use worth::kind::Worth;
use worth::lexicographic::Lexicographic;
use worth::money::Money;
use worth::money_then_weeks::MoneyThenWeeks;
use worth::weeks::Weeks;

// A kind of worth that records have: its worths stand in them as levels.
pub trait Levelled: Worth {
    ghost sort: { Sort };

    ghost level: { Self → Numbers };

    ghost worth: { Numbers → Self };

    fn kind() -> Kind
        ensures { kind_as result ≡ sort };

    // The worth as a level. A `From` each way could stand in reading, but it says its outcome as a relation, `from_gives`, and contracts and laws here
    // need the functions `level` and `worth`: each conversion would want a law more that ties the two.
    fn to_level(self) -> Level
        ensures { result ≡ level self };

    // The worth that a level stands for.
    fn from_level(l: Level) -> Self
        ensures { result ≡ worth l };

    ghost told: { Told Self.Worth.ops sort level worth };
}

impl Levelled for Money {
    ghost sort = { by_money };

    ghost level = { λ w. record { cents = w.cents; weeks = pos 0 } };

    ghost worth = { λ l. of_cents l.cents };

    ghost told = { record {
      sized = λ w. refl;
      again = λ l. refl;
      fitting = λ n ws. (λ f. subst (Fitted SpecsMoney.money n) (sym (amounts_again ws)) f, λ f. subst (Fitted SpecsMoney.money n) (amounts_again ws) f);
      cleared = λ b n zs l. l;
    } };

    fn kind() -> Kind {
        Kind::Money
    }

    fn to_level(self) -> Level {
        Level {
            cents: self.cents,
            weeks: 0,
        }
    }

    fn from_level(l: Level) -> Money {
        Money { cents: l.cents }
    }
}

impl Levelled for MoneyThenWeeks {
    ghost sort = { by_money_then_weeks };

    ghost level = { λ w. record { cents = w.first.cents; weeks = w.second.count } };

    ghost worth = { λ l. record { first = of_cents l.cents; second = of_count l.weeks } };

    ghost told = { record {
      sized = λ w. refl;
      again = λ l. refl;
      fitting = λ n ws. (λ f. subst (Fitted (pile SpecsMoney.money SpecsWeeks.weeks) n) (sym (pairs_again ws)) f, λ f. subst (Fitted (pile SpecsMoney.money SpecsWeeks.weeks) n) (pairs_again ws) f);
      cleared = λ b n zs l. l;
    } };

    fn kind() -> Kind {
        Kind::MoneyThenWeeks
    }

    fn to_level(self) -> Level {
        Level {
            cents: self.first.cents,
            weeks: self.second.count,
        }
    }

    fn from_level(l: Level) -> MoneyThenWeeks {
        Lexicographic {
            first: Money { cents: l.cents },
            second: Weeks { count: l.weeks },
        }
    }
}
