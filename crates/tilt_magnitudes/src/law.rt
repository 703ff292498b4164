// The law of bounds.
ghost use Rattle.std.specs.Prelude.{◌≡◌, ◌≤◌, ℕ, ℤ, List, Ok, Option, length, map};
ghost use Rattle.std.specs.List.{AllByRecursion};
ghost use Rattle.tilt_base.specs.Reduce.{reduce};
ghost use Rattle.tilt_base.specs.Scalar.{apply1, apply2, choose};
ghost use Rattle.tilt_base.specs.declared.operator.Op1.{Op1};
ghost use Rattle.tilt_base.specs.declared.operator.Op2.{Op2};
ghost use Rattle.tilt_base.specs.declared.reducer.Reducer.{Reducer};
ghost use Rattle.tilt_core.specs.CoreTree.{CoreTree, Definition};
ghost use Rattle.tilt_core.specs.Meaning.{AreGrids, body_of, sources};
ghost use Rattle.tilt_magnitudes.specs.Interval as interval;
ghost use Rattle.tilt_magnitudes.specs.Interval.{Bounds, BoundsCell, hull, interval1, interval2, interval_reduced};
ghost use Rattle.tilt_magnitudes.specs.Law.{BoundInputs, BoundSources, HaveAllMarks, everywhere};
ghost use Rattle.tilt_magnitudes.specs.Magnitude.{magnitude, magnitudes};
ghost use Rattle.tilt_magnitudes.specs.Marks.{HaveRates};
ghost use Rattle.tilt_magnitudes.specs.declared.met.Rate.{Rate};
ghost use Rattle.tilt_stream.specs.Snap.{Snapshot};
ghost use Rattle.tilt_stream.specs.Stream.{Stream, stream_of};
ghost use Rattle.tilt_units.specs.Law.{QueryStaysWithin, StaysWithin};
ghost use Rattle.tilt_units.specs.declared.place.Place.{Place};

/// This does nothing. Its clauses are the law of bounds. If operands are within intervals, what an operator gives is within the
/// operator's interval, null apart. If rows are within the intervals of the inputs, each source is within its interval at each tick,
/// and no operator and no reducer overflows.
pub fn values_stay_within_bounds()
    ensures one { (op : Op1) (a : interval.Interval) (x : Option ℤ) → BoundsCell a x → BoundsCell (interval1 op a) (apply1 op x) }
    ensures two { (op : Op2) (a b : interval.Interval) (x y : Option ℤ) → BoundsCell a x → BoundsCell b y
        → BoundsCell (interval2 op a b) (apply2 op x y) }
    ensures choice { (a b : interval.Interval) (c x y : Option ℤ) → BoundsCell a x → BoundsCell b y → BoundsCell (hull a b) (choose c x y) }
    // At most so many numbers.
    ensures reducer { (r : Reducer) (most : ℕ) (a : interval.Interval) (ns : List ℤ) → AllByRecursion (Bounds a) ns → length ns ≤ most
        → BoundsCell (interval_reduced r most a) (reduce r ns) }
    // An expression at a tick, over sources within intervals.
    ensures expression { (marks : ℕ → List ℕ) (bounds : List interval.Interval) (xs : List Stream) → BoundSources bounds xs
        → HaveAllMarks marks xs
        → (place : Place) (e : CoreTree) (i : interval.Interval) → magnitude marks bounds place e ≡ Ok i
        → (tick : ℤ) → BoundsCell i ((body_of xs e).cell tick) }
    // A whole query: each of its sources, inputs and definitions.
    ensures query { (inputs all : List interval.Interval) (rates : List Rate) (rows : List (List Snapshot)) (defs : List Definition)
        → BoundInputs inputs rows → HaveRates rates rows → AreGrids defs → magnitudes inputs rates defs ≡ Ok all
        → BoundSources all (sources rows defs) }
    // No node of the expression leaves 64 bits: each gives what it gives on whole numbers of any size.
    ensures no_overflow_in { (marks : ℕ → List ℕ) (bounds : List interval.Interval) (xs : List Stream) → BoundSources bounds xs
        → HaveAllMarks marks xs
        → (place : Place) (e : CoreTree) (i : interval.Interval) → magnitude marks bounds place e ≡ Ok i
        → (tick : ℤ) → StaysWithin everywhere xs tick e }
    // Nor does a node of any definition of the query.
    ensures no_overflow { (inputs all : List interval.Interval) (rates : List Rate) (rows : List (List Snapshot)) (defs : List Definition)
        → BoundInputs inputs rows → HaveRates rates rows → AreGrids defs → magnitudes inputs rates defs ≡ Ok all
        → QueryStaysWithin everywhere (map stream_of rows) defs }
{}
