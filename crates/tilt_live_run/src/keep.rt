/// What a run keeps of what it has read.
#[derive(Clone, Copy, Debug, PartialEq, Eq)]
pub enum Keep {
    /// Only what it reads itself.
    Nothing,
    /// Also what its state needs.
    State,
}
