use tilt_core::Def;

/// The definitions of a query after a number of inputs, which of its sources are used, and whether definitions are
/// merged.
#[derive(Clone, Copy)]
pub struct Query<'a> {
    pub inputs: usize,
    pub defs: &'a [Def],
    pub used: &'a [bool],
    pub fuse: bool,
}
