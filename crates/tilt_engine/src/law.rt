// Laws of loop code whose rows come in.
ghost use Rattle.std.specs.Prelude.{◌≡◌, ◌≤ℤ◌, ℤ, List, length};
ghost use Rattle.tilt_base.specs.declared.limits.TheConstants.{WIDE};
ghost use Rattle.tilt_code.specs.Code.{CodeParts};
ghost use Rattle.tilt_code.specs.References.{IsCode};
ghost use Rattle.tilt_code.specs.Run.{buffers_of};
ghost use Rattle.tilt_engine.specs.CodeHorizon.{code_horizons};
ghost use Rattle.tilt_engine.specs.GoingOn.{AllGoOn, IsNearCode};
ghost use Rattle.tilt_feed.specs.Resting.{RestsOn};
ghost use Rattle.tilt_feed.specs.Horizon.{Horizon, IsKnownAt};
ghost use Rattle.tilt_pipe.specs.Positions.{made_by};
ghost use Rattle.tilt_stream.specs.Snap.{Fill, Snapshot};

/// This does nothing. Its clauses are laws of the definitions. If the inputs of a code go on, so do all its buffers, each up to its own
/// horizon. What a loop has made up to a known tick stays as it is.
pub fn buffers_go_on()
    ensures buffers { (code : CodeParts) (hs : List Horizon) (before after : List (List Snapshot)) → IsCode code → IsNearCode code
        → length before ≡ length code.inputs → AllGoOn hs before after
        → AllGoOn (code_horizons code hs) (buffers_of code before) (buffers_of code after) }
    ensures made { (lo hi start : ℤ) (h : Horizon) (before after : List Snapshot) → Fill lo hi before → Fill lo hi after
        → start ≤ℤ hi → hi ≤ℤ WIDE → RestsOn h before after → IsKnownAt h start → Fill lo start (made_by start before)
        → made_by start after ≡ made_by start before }
{}
