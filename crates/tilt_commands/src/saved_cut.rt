use tilt_cli::Upto;

/// The cuts at which a session ends, and the name under which it saves its checkpoint.
#[derive(Clone, Copy)]
pub struct SavedCut<'a> {
    /// The cuts, in ticks: each row of an input starts below its own.
    pub upto: &'a Upto,
    /// The name.
    pub save: &'a str,
}
