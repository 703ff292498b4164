// Whether a watcher has seen enough.
ghost use Rattle.std.specs.Prelude.{◌≡◌};
ghost use Rattle.tilt_watch.specs.Watch.{next_of};

/// What a watcher says once it saw a row.
#[derive(Clone, Copy, Debug, PartialEq, Eq)]
pub enum Next {
    /// It wants to see more.
    More,
    /// It has seen enough.
    Done,
}

impl Next {
    /// What a watcher says whose new pair is an end, or isn't.
    pub fn at(is_end: bool) -> Next
        ensures { result ≡ next_of is_end }
    {
        if is_end { Next::Done } else { Next::More }
    }
}
