// The run of a query as that of a feed.
ghost use Rattle.std.specs.Prelude.{◌≡◌};
ghost use Rattle.tilt_live_run.specs.Feeds.{feed_result};

use crate::live_run::LiveRun;
use crate::stop::Stop;
use std::alloc::Global;
use tilt_outside::Sink;
use tilt_port::Port;
use tilt_serving as serving;
use tilt_serving::FeedRun;

impl FeedRun for LiveRun {
    ghost use Rattle.tilt_live_run.specs.Feeds.{IsRunAt, QueryRun, live_meaning};
    ghost use Rattle.tilt_live_run.specs.Left.{KeepsState};
    ghost use Rattle.tilt_live_run.specs.Runs.{IsSound};

    ghost Of = { QueryRun };

    ghost is = { IsRunAt };

    ghost sound = { IsSound };

    ghost keeps = { KeepsState };

    ghost means = { λ of. live_meaning of.accepted.core of.options };

    fn feed<P: Port, E: Sink>(
        &mut self,
        _alloc: Global,
        piece: &[u8],
        port: &mut P,
        err: &mut E,
    ) -> Result<(), serving::Stop> {
        feed_result(self.take(piece, port, err))
    }

    fn end_feed<E: Sink>(&self, err: &mut E) -> Result<(), serving::Stop> {
        feed_result(self.end(err))
    }
}

// What a run did, as that of a feed does it.
fn feed_result(taken: Result<(), Stop>) -> Result<(), serving::Stop>
    ensures { result ≡ feed_result taken }
{
    match taken {
        Ok(()) => Ok(()),
        Err(Stop::BadLine) => Err(serving::Stop::BadLine),
        Err(Stop::WriteFault) => Err(serving::Stop::WriteFault),
        Err(Stop::OutOfMemory) => Err(serving::Stop::OutOfMemory),
    }
}
