// The law of watching queries.
ghost use Rattle.std.specs.Prelude.{◌≡◌, ◌↔◌, ◌+ℤ◌, ◌-ℤ◌, ◌≤ℤ◌, ◌<ℤ◌, ℤ, List, Ok, Some, None, length, map, neg_ℤ, pos, true};
ghost use Rattle.tilt_base.specs.declared.limits.TheConstants.{T};
ghost use Rattle.tilt_base.specs.declared.span.Span.{Span};
ghost use Rattle.tilt_core.specs.Core.{CoreParts, IsCore, domain_of, emitted_number};
ghost use Rattle.tilt_core.specs.CoreTree.{CoreTree};
ghost use Rattle.tilt_core.specs.Meaning.{body_of, meaning};
ghost use Rattle.tilt_core.specs.Needs.{reach};
ghost use Rattle.tilt_fractions.specs.Exact.{CellStandsFor};
ghost use Rattle.tilt_overflows.specs.Law.{AllUsed, EmitsNothing, QueryLeaves, ReadsChosen, Spans, asked_for, exact_emitted, watch_cell};
ghost use Rattle.tilt_overflows.specs.Leaves.{leaves};
ghost use Rattle.tilt_overflows.specs.Watching.{watching_defs};
ghost use Rattle.tilt_stream.specs.Snap.{Snapshot};
ghost use Rattle.tilt_stream.specs.Stream.{Stream, stream_of};
ghost use Rattle.tilt_units.specs.Exact.{ScaledRows, rows_of, scale_in, scales_of};
ghost use Rattle.tilt_units.specs.Law.{Chosen, DefinitionsHaveScales, InputsHaveScales, QueryStaysWithin, StaysWithin};
ghost use Rattle.tilt_units.specs.Translation.{ScaledQuery, UnitDefinition, translated};

use tilt_units::translation_keeps_meaning;

/// This does nothing. Its clauses are the law of watching queries. The watch of an expression is 0 at a tick at which no node of the
/// expression leaves 64 bits, and 1 at any other. A watching query emits 1 at the ticks of its domain at which a node of a definition
/// leaves 64 bits, and null at the others. If it emits nothing but null, no node leaves 64 bits at a tick that the output can depend on.
/// That is so of the whole output domain, unless a span can't be as wide as what the output depends on. Then it is so of any part of the
/// output domain for which the span is wide enough.
pub fn watching_queries_see_overflows()
    // An expression at a tick, over any streams.
    ensures stays { (chosen : Chosen) (xs : List Stream) (tick : ℤ) (e : CoreTree) → ReadsChosen chosen tick e
        → StaysWithin chosen xs tick e ↔ ((body_of xs (leaves e)).cell tick ≡ Some (pos 0)) }
    ensures leaves { (chosen : Chosen) (xs : List Stream) (tick : ℤ) (e : CoreTree) → ReadsChosen chosen tick e
        → (¬ (StaysWithin chosen xs tick e)) ↔ ((body_of xs (leaves e)).cell tick ≡ Some (pos 1)) }
    ensures reads { (chosen : Chosen) (xs : List Stream) (tick : ℤ) (e : CoreTree) → StaysWithin chosen xs tick e
        → ReadsChosen chosen tick e }
    // A whole query, whatever the rows of its inputs are: what the watching query emits at each tick of its domain.
    ensures emits { (core : CoreParts) (rows : List (List Snapshot)) (span : Span) (tick : ℤ) → IsCore core
        → length rows ≡ length core.inputs → domain_of (watching_defs core) ≡ Some span → span.start <ℤ tick → tick ≤ℤ span.end
        → (QueryLeaves (map stream_of rows) core.defs tick → watch_cell core rows tick ≡ Some (pos 1))
        × (¬ (QueryLeaves (map stream_of rows) core.defs tick) → watch_cell core rows tick ≡ None) }
    // And what it means that it emits nothing.
    ensures query { (core : CoreParts) (rows : List (List Snapshot)) (span : Span) (lo hi : ℤ) → IsCore core
        → length rows ≡ length core.inputs → domain_of (watching_defs core) ≡ Some span → Spans core lo hi span
        → EmitsNothing core rows span → QueryStaysWithin (asked_for core lo hi) (map stream_of rows) core.defs }
    // Each tick of the output is one that it can depend on, and the domain of the watching query has all others.
    ensures covers { (core : CoreParts) (lo hi tick : ℤ) → IsCore core → lo <ℤ tick → tick ≤ℤ hi
        → asked_for core lo hi (emitted_number core) tick ≡ true }
    ensures spans { (core : CoreParts) (domain span : Span) → domain_of core.defs ≡ Some domain
        → domain_of (watching_defs core) ≡ Some span → neg_ℤ T ≤ℤ (domain.start -ℤ (reach (length core.inputs) core.defs).back)
        → (domain.end +ℤ (reach (length core.inputs) core.defs).ahead) ≤ℤ T → Spans core domain.start domain.end span }
    // The watching query looks no farther than the query, if the output depends on each definition. So it is compiled if the query is.
    ensures near { (core : CoreParts) → IsCore core → AllUsed core
        → ((reach (length core.inputs) (watching_defs core)).back ≤ℤ (reach (length core.inputs) core.defs).back)
        × ((reach (length core.inputs) (watching_defs core)).ahead ≤ℤ (reach (length core.inputs) core.defs).ahead) }
{}

/// This does nothing. Its clause is what a watching query says of a query in units. Take the query over whole numbers that is its
/// translation, and any rows of its inputs for which the watching query emits nothing but null. Take a cell that the query over whole
/// numbers emits, and divide it by the scale of its output. It is the exact cell that the query in units emits, null for null.
pub fn watched_queries_are_exact()
    ensures { (core : CoreParts) (inputs : List ScaledRows) (defs : List UnitDefinition) (query : ScaledQuery) (span : Span) (lo hi : ℤ)
        → IsCore core → length inputs ≡ length core.inputs → InputsHaveScales inputs → DefinitionsHaveScales defs
        → translated (scales_of inputs) defs ≡ Ok query → query.defs ≡ core.defs
        → domain_of (watching_defs core) ≡ Some span → Spans core lo hi span → EmitsNothing core (rows_of inputs) span
        → (tick : ℤ) → lo <ℤ tick → tick ≤ℤ hi → CellStandsFor (scale_in (exact_emitted core inputs defs).quantity)
        ((meaning (rows_of inputs) core.defs (emitted_number core)).cell tick) ((exact_emitted core inputs defs).stream.cell tick) }
{
    translation_keeps_meaning();
    watching_queries_see_overflows();
}
