// The law of runs that report no results that leave 64 bits.
ghost use Rattle.std.specs.Prelude.{◌≡◌, ℕ, List, Some};
ghost use Rattle.tilt_base.specs.declared.span.Span.{Span};
ghost use Rattle.tilt_core.specs.Core.{CoreParts, domain_of};
ghost use Rattle.tilt_exact_runs.specs.Exact.{CountsNothing, IsBounded, IsExact, IsInReach, IsQueryOver, IsWholeFeed};
ghost use Rattle.tilt_live_run.specs.declared.run_options.RunOptions.{RunOptions};
ghost use Rattle.tilt_unit_report.specs.declared.bound.InputBound.{InputBound};
ghost use Rattle.tilt_unit_text.specs.Said.{QueryInUnits};
ghost use Rattle.tilt_units.specs.Exact.{ScaledRows, rows_of};

use tilt_core::changes_only_at_marks;
use tilt_feed::all_is_printed;
use tilt_live_run::output_is_printed;
use tilt_magnitudes::values_stay_within_bounds;
use tilt_overflows::watching_queries_see_overflows;
use tilt_unit_load::loaded_queries_keep_meaning;

/// This does nothing. Its clauses are the law of runs that report no results that left 64 bits. Take a query file in units, a run of its
/// query, and the bytes of a whole feed. What was written for any tick of the output domain is a number of the decimals of the output. It
/// is the exact cell that the query in units emits on the rows of the feed: nothing for null.
pub fn quiet_runs_are_exact()
    // If the run is watched and reports no count. The domain, widened by what the query looks back and ahead, is within the limits.
    ensures counted { (file : List ℕ) (core : CoreParts) (decimals : ℕ) (said : QueryInUnits) (inputs : List ScaledRows)
        (options : RunOptions) (bytes : List ℕ) (domain : Span) → IsQueryOver file core decimals said inputs
        → IsWholeFeed core options bytes (rows_of inputs) → domain_of core.defs ≡ Some domain
        → CountsNothing core options bytes → IsInReach core domain → IsExact core options bytes decimals said inputs domain }
    // If no number can leave 64 bits within bounds that are given, and the rows are within these.
    ensures bounded { (file : List ℕ) (core : CoreParts) (decimals : ℕ) (said : QueryInUnits) (inputs : List ScaledRows)
        (options : RunOptions) (bytes : List ℕ) (domain : Span) → IsQueryOver file core decimals said inputs
        → IsWholeFeed core options bytes (rows_of inputs) → domain_of core.defs ≡ Some domain
        → (bounds : List InputBound) → IsBounded core bounds (rows_of inputs) → IsExact core options bytes decimals said inputs domain }
{
    changes_only_at_marks();
    all_is_printed();
    output_is_printed();
    watching_queries_see_overflows();
    values_stay_within_bounds();
    loaded_queries_keep_meaning();
}
