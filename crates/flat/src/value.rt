// What a flow has where it is present.
#[derive(Clone, Copy, Debug, PartialEq, Eq)]
pub enum Value<N> {
    Truth(bool),
    Number(N),
}
