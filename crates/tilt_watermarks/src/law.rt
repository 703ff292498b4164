// Laws of watermarks.
ghost use Rattle.std.specs.Prelude.{◌≡◌, ◌≢◌, ◌<◌, ◌++◌, ℕ, List, [], Some, None, true, length, option_map};
ghost use Rattle.std.specs.List.{AllByRecursion};
ghost use Rattle.tilt_feed.specs.Events.{after_all};
ghost use Rattle.tilt_feed.specs.Feed.{empty_feed};
ghost use Rattle.tilt_feed_line.specs.declared.line.Line.{Line};
ghost use Rattle.tilt_feed.specs.declared.update.Update.{Update};
ghost use Rattle.tilt_watermarks.specs.Held.{start_of, with_update};
ghost use Rattle.tilt_watermarks.specs.Basic.{basic_edges, basic_events, basic_fault};
ghost use Rattle.tilt_watermarks.specs.Laws.{AreAllowed, AreNear, AreRising, IsFit, IsKeptOf, edges_of, gathered};
ghost use Rattle.tilt_watermarks.specs.Laws.{no_options, pieces, stepped_all, updates_of, watermarked};
ghost use Rattle.tilt_watermarks.specs.Steps.{Kept, input_at, line_fault, nothing_kept, taken};
ghost use Rattle.tilt_watermarks.specs.declared.fault.TakeFault.TheVariants.{NotAllowed};
ghost use Rattle.tilt_watermarks.specs.declared.options.Options.{Options};

/// This does nothing. Its clauses are laws of the definitions, for every list of lines. Each event that they hand on is allowed after those
/// before it, so none is lost. What is kept are the edges of the feed after these events, and whether it is finished. What is held is
/// allowed after them.
pub fn events_are_allowed()
    ensures allowed { (options : Options) (inputs : ℕ) (lines : List Line)
        → AreAllowed (watermarked options inputs lines).events (empty_feed inputs) }
    ensures kept { (options : Options) (inputs : ℕ) (lines : List Line)
        → IsKeptOf options.lateness (watermarked options inputs lines).kept
        (after_all (watermarked options inputs lines).events (empty_feed inputs)) }
{}

/// This does nothing. Its clauses are laws of the definitions. Without options, if nothing is held, a line does what the basic rule says,
/// and it isn't taken exactly if it breaks a rule of feeds.
pub fn basic_rule_holds()
    ensures edges { (kept : Kept) (line : Line) → AllByRecursion (IsFit None) kept.inputs
        → edges_of (taken no_options line kept).kept.inputs ≡ basic_edges line (edges_of kept.inputs) }
    ensures events { (kept : Kept) (line : Line) → AllByRecursion (IsFit None) kept.inputs
        → (taken no_options line kept).events ≡ basic_events line (edges_of kept.inputs) }
    ensures fault { (kept : Kept) (line : Line)
        → line_fault no_options kept line ≡ option_map NotAllowed (basic_fault kept.finished (edges_of kept.inputs) line) }
{}

/// This does nothing. Its clauses are laws of the definitions, for every list of lines. No watermark falls. With `idle N`, each input's
/// watermark is at least `M - N` for the largest watermark `M` that lines have given, until the feed is finished.
pub fn watermarks_rise()
    ensures rising { (options : Options) (inputs : ℕ) (lines more : List Line)
        → AreRising (watermarked options inputs lines).kept (stepped_all options more (watermarked options inputs lines).kept).kept }
    ensures near { (options : Options) (ticks inputs : ℕ) (lines : List Line) → options.idle ≡ Some ticks
        → AreNear ticks (watermarked options inputs lines).kept }
    ensures inputs { (options : Options) (inputs : ℕ) (lines : List Line) → length (watermarked options inputs lines).kept.inputs ≡ inputs }
{}

/// This does nothing. Its clauses are laws of the definitions, for every list of lines under lateness. The rows and values of an input that
/// were handed on, and then those that are held, are those of the lines that were taken, in order of their starts. When the feed is
/// finished, nothing is held. So nothing is lost. Two lines with different starts may come in either order: if both are taken, the rows and
/// values in order are the same.
pub fn lines_are_sorted()
    ensures sorted { (options : Options) (ticks inputs number : ℕ) (lines : List Line)
        → options.lateness ≡ Some ticks → number < inputs
        → pieces (updates_of number (watermarked options inputs lines).events)
        ++ (input_at (watermarked options inputs lines).kept.inputs number).held
        ≡ gathered options number lines (nothing_kept inputs) [] }
    ensures last { (options : Options) (inputs number : ℕ) (lines : List Line)
        → (watermarked options inputs lines).kept.finished ≡ true
        → (input_at (watermarked options inputs lines).kept.inputs number).held ≡ [] }
    ensures either { (one two : Update) (updates : List Update) → (start_of one ≢ start_of two)
        → with_update one (with_update two updates) ≡ with_update two (with_update one updates) }
{}
