// The law of ill-scaled queries.
ghost use Rattle.std.specs.Prelude.{◌≡◌, Err, List, ℕ};
ghost use Rattle.tilt_core.specs.CoreTree.{Definition};
ghost use Rattle.tilt_magnitudes.specs.Interval.{Interval};
ghost use Rattle.tilt_magnitudes.specs.Magnitude.{magnitudes};
ghost use Rattle.tilt_magnitudes.specs.declared.met.Rate.{Rate};
ghost use Rattle.tilt_magnitudes.specs.declared.overflow.Overflow.{Overflow};
ghost use Rattle.tilt_unit_report.specs.IllScaled.{IsIllScaled};

/// This does nothing. Its clauses say when a report has an ill-scaled statement: exactly if one of its definitions is the first that can
/// leave 64 bits, and then it is that definition.
pub fn ill_scaled_queries_have_one_statement()
    ensures found { (inputs : List Interval) (rates : List Rate) (defs : List Definition) (overflow : Overflow)
        → magnitudes inputs rates defs ≡ Err overflow → IsIllScaled inputs rates defs overflow.place.definition }
    ensures reported { (inputs : List Interval) (rates : List Rate) (defs : List Definition) (number : ℕ)
        → IsIllScaled inputs rates defs number
        → (overflow : Overflow) × (magnitudes inputs rates defs ≡ Err overflow) × (overflow.place.definition ≡ number) }
{}
