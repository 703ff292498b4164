use tilt_code::Loop;

// What a turn is taken over: the buffers before its loop, the loop, and the grid point.
#[derive(Drop)]
pub(crate) struct Reading<'a, 'b, S> {
    pub(crate) buffers: &'a S,
    pub(crate) each: &'b Loop,
    pub(crate) point: i64,
}
