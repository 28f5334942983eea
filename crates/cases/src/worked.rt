ghost use Rattle.cases.specs.Cases.{Cases};

use worth::kind::Worth;

// What the rules make of the worked cases, whichever cycles improve takes and whichever potentials are left. The empty round comes
// out the same by every kind of worth, so `W` is any; the others are by money, or by money then weeks.
pub fn cases_stand<W: Worth>()
    ensures { Cases W.Worth.ops (record {
      empty_worth = 0;
      empty_worth_with_weeks = (0, 0);
      chain_rise = 270;
      chain_rise_with_weeks = (270, 6);
      offer_0_costs = (300, 0);
      offer_1_pays = (90, 3);
      offer_2_pays = (480, 3);
      rise_with_two = 180;
      rise_with_none = 0;
      rise_at_70 = 0;
      rise_at_70_with_weeks = (0, 6);
      rise_at_69 = 0;
      rise_at_69_with_weeks = (0, 0);
      resale_rise = 100;
      resale_rise_with_none = 100;
      resale_rise_with_one = 130;
      market_rise = 1500;
      market_rise_with_weeks = (1500, 140);
      record_length = 198;
      sheet_worth = 270;
      empty_record = 0;
      chain_record = 270;
      raised_record = 270;
      cash_record = 180;
      no_cash_record = 0;
      weeks_record = (0, 6);
      market_record = 1500;
      refusal_with_79 = 11;
      refusal_of_twos = 11;
      refusal_of_fours = 15;
      refusal_of_cut = 13;
      line_of_cut = 35;
      roads_rise = 60;
      units_on_roads = 3;
      refusal_of_loop = 8;
      offer_at_same_price = 0;
      offer_at_lower_price = 0;
      offer_at_highest = 0;
      offer_at_lowest = 0;
      refusal_of_limits = 3;
      refusal_of_prices = 4;
    }) }
{}
