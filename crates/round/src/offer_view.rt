use book::line::Line;

// An offer to be read: its lines are still parts of the round.
#[derive(Clone, Copy, Debug, PartialEq, Eq)]
pub struct OfferView<'a> {
    pub member: u32,
    pub limit: u32,
    pub give: &'a [Line],
    pub get: &'a [Line],
}
