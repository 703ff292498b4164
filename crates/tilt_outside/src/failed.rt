/// A read, a save or a write that failed. The count of such faults of the shelf or the sink rose.
#[derive(Clone, Copy, Debug, PartialEq, Eq)]
pub struct Failed;
