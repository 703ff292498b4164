/// What is asked of the watermarks, in ticks.
#[derive(Clone, Copy, Debug, PartialEq, Eq)]
pub struct Options {
    /// How far the watermark of an input may stay behind the largest watermark that lines have given. Without it, only lines move
    /// watermarks.
    pub idle: Option<u64>,
    /// How far above the largest end that lines have given a line may start. Without it, a line may start anywhere.
    pub ahead: Option<u64>,
    /// How far the watermark of an input stays behind the largest end of its lines, so that lines may come out of order. Without it, what
    /// a line gives is handed on at once.
    pub lateness: Option<u64>,
}
