// Where a bad reference is: its loop and its line, both counted from 1.
#[derive(Clone, Copy, Debug)]
pub(crate) struct Place {
    pub(crate) in_loop: u64,
    pub(crate) line: u64,
}
