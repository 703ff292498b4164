// What is open after the lines of a listing so far.
#[derive(Clone, Copy, Debug)]
pub(crate) enum Stage {
    // Nothing was read.
    Before,
    // The title was read, and no loop is open.
    Outside,
    // A map of a loop is open.
    InMap,
    // A loop is open, and no map.
    InBody,
}
