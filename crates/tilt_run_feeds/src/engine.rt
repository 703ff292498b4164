// The engine of a feed.
ghost use Rattle.tilt_run_feeds.specs.Engines.{IsEngine};

use std::alloc::AllocError as OutOfMemory;
use tilt_base::Cell;
use tilt_engine::TakeError;
use tilt_feed::Event;
use tilt_live::Live;
use tilt_live_start::LiveSession;
use tilt_stream::Snap;

// A live engine, or one that goes on from a checkpoint of sessions.
#[derive(Drop)]
pub(crate) enum Engine {
    Live(Live),
    Session(LiveSession),
}

impl Engine {
    // Takes an event.
    pub(crate) fn take(&mut self, event: Event) -> Result<(), TakeError>
        requires { IsEngine self.old }
        ensures { IsEngine self.new }
    {
        match self {
            Engine::Live(live) => live.take(event),
            Engine::Session(session) => session.take(event),
        }
    }

    // The next snapshot that is final.
    pub(crate) fn next(&mut self) -> Result<Option<Snap>, OutOfMemory>
        requires { IsEngine self.old }
        ensures { IsEngine self.new }
    {
        match self {
            Engine::Live(live) => live.next(),
            Engine::Session(session) => session.next(),
        }
    }

    // What has begun, after all that is final.
    pub(crate) fn begun(&mut self) -> Result<Option<(i64, Cell)>, OutOfMemory>
        requires { IsEngine self.old }
        ensures { IsEngine self.new }
    {
        match self {
            Engine::Live(live) => live.begun(),
            Engine::Session(session) => session.begun(),
        }
    }
}
