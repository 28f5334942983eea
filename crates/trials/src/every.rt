use flow::arc::Arc;

// What the best circulation is worth in money, in weeks, and in money then weeks.
#[derive(Clone, Copy, Default, PartialEq, Eq)]
pub(crate) struct Best {
    pub(crate) money: i64,
    pub(crate) weeks: i64,
    pub(crate) both: (i64, i64),
}

impl Best {
    // The best of these and of one more circulation.
    fn or(self, (money, weeks): (i64, i64)) -> Best {
        Best {
            money: self.money.max(money),
            weeks: self.weeks.max(weeks),
            both: self.both.max((money, weeks)),
        }
    }
}

// Goes to the next row of flows within the capacities, or back to no flows after the last.
fn advance(arcs: &mut [Arc]) -> bool {
    for arc in arcs.iter_mut() {
        if arc.flow < arc.capacity {
            arc.flow += 1;
            return true;
        }
        arc.flow = 0;
    }
    false
}

// The flows of the arcs that pass a test.
fn carried<F: Fn(&Arc) -> bool>(arcs: &[Arc], counts: F) -> u64
    requires { F.IsAlwaysCallable counts }
{
    arcs.iter()
        .filter(|arc| counts(arc))
        .map(|arc| u64::from(arc.flow))
        .fold(0, u64::wrapping_add)
}

// Whether as much comes into a node as goes out of it. It is written apart from the library's own test, which is on trial here.
fn balanced(arcs: &[Arc], node: u32) -> bool {
    carried(arcs, |arc| arc.to == node) == carried(arcs, |arc| arc.from == node)
}

// Whether the flows are a circulation of a network of four nodes.
fn circulates(arcs: &[Arc]) -> bool {
    (0..4).all(|node| balanced(arcs, node))
}

// The money and the weeks of all flows.
fn sums(arcs: &[Arc]) -> (i64, i64) {
    let money = arcs
        .iter()
        .map(|arc| arc.price.wrapping_mul(i64::from(arc.flow)))
        .fold(0, i64::wrapping_add);
    let weeks = arcs
        .iter()
        .map(|arc| i64::from(arc.weeks).wrapping_mul(i64::from(arc.flow)))
        .fold(0, i64::wrapping_add);
    (money, weeks)
}

// The best of all circulations of at most five arcs with capacities up to 2: 3 to the power of 5 rows of flows.
pub(crate) fn best_of(arcs: &mut [Arc]) -> Best {
    let mut best = Best::default();
    // the bound on the rows is what shows that this ends
    for _ in 0..243 {
        if circulates(arcs) {
            best = best.or(sums(arcs));
        }
        if !advance(arcs) {
            break;
        }
    }
    best
}
