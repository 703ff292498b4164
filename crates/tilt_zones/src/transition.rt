/// A moment at which clocks are set, and how far they are ahead of UTC from then on.
#[derive(Clone, Copy, Debug, PartialEq, Eq)]
pub struct Transition {
    /// In whole seconds since 1970-01-01T00:00:00Z.
    pub moment: i64,
    /// In seconds.
    pub offset: i32,
}
