use book::line::Line;
use book::side::Side;
use round::closed_round::ClosedRound;
use round::open_round::OpenRound;
use tables::refusal::Refusal;
use worth::money::Money;

fn line(item: u32, limit: u32, price: u32) -> Line {
    Line { item, limit, price }
}

// One sort of week and two members, of which the first holds 5 weeks.
fn small() -> OpenRound {
    let mut round = OpenRound::open();
    let _ = round.item(b"week");
    let _ = round.member(b"north");
    let _ = round.member(b"quay");
    let _ = round.hold(0, 1, 5);
    round
}

fn sale(round: &mut OpenRound, limit: u32, price: u32) -> Result<u32, Refusal> {
    round.offer(0, limit, &[line(1, limit, price)], &[line(0, limit, 0)])
}

fn purchase(round: &mut OpenRound, price: u32) -> Result<u32, Refusal> {
    round.offer(1, 4, &[line(0, 4, 0)], &[line(1, 4, price)])
}

#[test]
fn limits_and_prices_have_edges(rt: HostRuntime) {
    let mut round = small();
    assert_eq!(rt; sale(&mut round, 1000, 1_000_000), Ok(0));
    assert_eq!(rt; sale(&mut round, 0, 1), Err(Refusal::Bounds));
    assert_eq!(rt; sale(&mut round, 1001, 1), Err(Refusal::Bounds));
    assert_eq!(rt; sale(&mut round, 1, 1_000_001), Err(Refusal::Price));
}

#[test]
fn cash_may_not_gain_by_going_round(rt: HostRuntime) {
    let mut round = small();
    let low = round.offer(0, 1, &[line(0, 1, 20)], &[line(0, 1, 40)]);
    assert_eq!(rt; low, Err(Refusal::Loop));
    let even = round.offer(0, 1, &[line(0, 1, 40)], &[line(0, 1, 40)]);
    assert_eq!(rt; even, Ok(0));
}

fn cleared(open: OpenRound) -> ClosedRound<Money> {
    let mut round: ClosedRound<Money> = open.close();
    let mut work = [Money { cents: 0 }; 272];
    let _ = round.clear(&mut work);
    round
}

#[test]
fn a_cash_holding_of_0_is_not_none(rt: HostRuntime) {
    let mut free = small();
    let _ = sale(&mut free, 3, 100);
    let _ = purchase(&mut free, 130);
    assert_eq!(rt; cleared(free).worth().cents, 90);
    let mut bound = small();
    let _ = bound.hold(1, 0, 0);
    let _ = sale(&mut bound, 3, 100);
    let _ = purchase(&mut bound, 130);
    assert_eq!(rt; cleared(bound).worth().cents, 0);
}

#[test]
fn weeks_got_may_not_be_given(rt: HostRuntime) {
    let mut round = small();
    let _ = round.member(b"west");
    let _ = sale(&mut round, 3, 100);
    let _ = purchase(&mut round, 130);
    let _ = round.offer(1, 4, &[line(1, 4, 100)], &[line(0, 4, 0)]);
    let _ = round.offer(2, 4, &[line(0, 4, 0)], &[line(1, 4, 200)]);
    let closed = cleared(round);
    assert_eq!(rt; closed.worth().cents, 300);
    assert_eq!(rt; closed.units(2, Side::Give, 0), Ok(0));
}

#[test]
fn the_last_offer_and_line_count(rt: HostRuntime) {
    let mut round = small();
    let _ = round.item(b"other");
    let _ = sale(&mut round, 3, 100);
    let _ = round.offer(1, 4, &[line(0, 4, 0)], &[line(2, 4, 500), line(1, 4, 130)]);
    let closed = cleared(round);
    assert_eq!(rt; closed.worth().cents, 90);
    assert_eq!(rt; closed.units(1, Side::Get, 1), Ok(3));
    assert_eq!(rt; closed.units(1, Side::Get, 2), Err(Refusal::Unknown));
    assert_eq!(rt; closed.payoff(2), Err(Refusal::Unknown));
}

#[test]
fn holdings_and_withdrawals(rt: HostRuntime) {
    let mut round = small();
    assert_eq!(rt; round.holding(0, 0), Ok(None));
    let _ = round.hold(0, 0, 0);
    assert_eq!(rt; round.holding(0, 0), Ok(Some(0)));
    let _ = round.hold(0, 1, 2);
    assert_eq!(rt; round.holding(0, 1), Ok(Some(2)));
    assert_eq!(rt; round.holding(2, 0), Err(Refusal::Unknown));
    let _ = sale(&mut round, 3, 100);
    assert_eq!(rt; round.withdraw(0), Ok(()));
    assert_eq!(rt; round.withdraw(0), Err(Refusal::Withdrawn));
    assert_eq!(rt; round.withdraw(1), Err(Refusal::Unknown));
}
