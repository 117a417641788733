// When a flow is present: at every beat, or where another flow is present with this truth. Its parent is the
// clock of that flow. As an `Option` it would call the flows that are always present `None`.
#[derive(Clone, Copy, Debug, PartialEq, Eq)]
pub enum Clock {
    Base,
    On(u16, bool),
}
