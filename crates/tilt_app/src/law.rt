// Laws of the outcomes of arguments.
ghost use Rattle.std.specs.Prelude.{◌≡◌, List, ℕ};
ghost use Rattle.tilt_app.specs.Outcome.{IsOutcome};
ghost use Rattle.tilt_app.specs.SessionCalls.{AreSessions, IsOneRun, SessionCall};
ghost use Rattle.tilt_report.specs.Report.{Outcome};
ghost use Rattle.tilt_watch.specs.Watch.{Watch};

/// This does nothing. Its clauses are the law that arguments have one outcome, whatever the files hold and whoever watches: there always
/// is one (`some`), and no other (`one`).
pub fn outcome_is_one()
    ensures some { (words : List (List ℕ)) (files : List ℕ → List ℕ) (watchers : List Watch)
        → (outcome : Outcome) × IsOutcome words files watchers outcome }
    ensures one { (words : List (List ℕ)) (files : List ℕ → List ℕ) (watchers : List Watch) (outcome other : Outcome)
        → IsOutcome words files watchers outcome → IsOutcome words files watchers other → outcome ≡ other }
{}

/// This does nothing. Its clause is the law of sessions, over every list of calls of `tilt` that exited with status 0. The first is
/// `start`, and each later one is `resume` after a file that holds what the one before it saved. The last one goes on to the last row.
/// Such calls are one run: the texts that they wrote, joined, are what `run` prints on all rows that they read.
pub fn sessions_are_one_run()
    ensures { (first : SessionCall) (calls : List SessionCall) → AreSessions first calls → IsOneRun first calls }
{}
