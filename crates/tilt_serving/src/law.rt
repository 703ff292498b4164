// A law of feeds that are served by one run after another.
ghost use Rattle.std.specs.Prelude.{◌≡◌, ◌++◌, List, ℕ, None};
ghost use Rattle.tilt_serving.specs.Meaning.{FeedMeaning, GoesByBytes};
ghost use Rattle.tilt_serving.specs.Served.{Start, all_reports, end_for, line_reports, output_for, start_after, stop_for};

/// This does nothing. Its clauses are a law of runs that go by the bytes of their feed. Take bytes none of whose lines stops the run. After
/// what one run writes for them, it writes for more bytes just what a run writes that starts after them (`written`). It reports the same
/// too, and stops for the same reason (`reported`, `stops`).
pub fn servings_are_joined()
    ensures written { (means : FeedMeaning) (start : Start) (bytes more : List ℕ) → GoesByBytes means → stop_for means start bytes ≡ None
        → output_for means start (bytes ++ more) ≡ output_for means start bytes ++ output_for means (start_after start bytes) more }
    ensures reported { (means : FeedMeaning) (start : Start) (bytes more : List ℕ) → GoesByBytes means → stop_for means start bytes ≡ None
        → all_reports means start (bytes ++ more) ≡ line_reports means start bytes ++ all_reports means (start_after start bytes) more }
    ensures stops { (means : FeedMeaning) (start : Start) (bytes more : List ℕ) → GoesByBytes means → stop_for means start bytes ≡ None
        → end_for means start (bytes ++ more) ≡ end_for means (start_after start bytes) more }
{}
