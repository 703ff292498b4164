// The law of checked queries.
ghost use Rattle.std.specs.Prelude.{◌≡◌, ◌^◌, None, List, ℕ, ℤ};
ghost use Rattle.tilt_core.specs.Core.{emitted_number};
ghost use Rattle.tilt_core.specs.Meaning.{meaning};
ghost use Rattle.tilt_fractions.specs.Exact.{CellStandsFor};
ghost use Rattle.tilt_input_scales.specs.Scales.{ScalesValue};
ghost use Rattle.tilt_magnitudes.specs.Law.{BoundInputs};
ghost use Rattle.tilt_magnitudes.specs.Marks.{HaveRates};
ghost use Rattle.tilt_unit_check.specs.Check.{IsChecked};
ghost use Rattle.tilt_unit_check.specs.declared.check.Checked.{Checked};
ghost use Rattle.tilt_unit_load.specs.UnitFile.{exact_output};
ghost use Rattle.tilt_unit_report.specs.Bound.{rates_for, values_for};
ghost use Rattle.tilt_unit_report.specs.declared.bound.InputBound.{InputBound};
ghost use Rattle.tilt_unit_text.specs.Said.{IsInUnits, QueryInUnits};
ghost use Rattle.tilt_units.specs.Exact.{ScaledRows, rows_of, scales_of};
ghost use Rattle.tilt_units.specs.Law.{InputsHaveScales};

use tilt_unit_load::loaded_queries_keep_meaning;

/// This does nothing. Its clause is the law of checked queries. Take a query that was checked, in which no definition can leave 64 bits,
/// and any rows of its inputs within the bounds. Take a cell that the query over whole numbers emits, and divide it by the power of ten
/// with as many zeros as its output has decimals. It is the exact cell that the query in units emits, null for null.
pub fn checked_queries_are_exact()
    ensures { (bytes : List ℕ) (scales : ScalesValue) (bounds : List InputBound) (found : Checked) (said : QueryInUnits)
        (inputs : List ScaledRows) → (is : IsChecked scales bounds bytes found) → found.can_leave ≡ None
        → IsInUnits scales bytes said → scales_of inputs ≡ said.scales → InputsHaveScales inputs
        → BoundInputs (values_for bounds is.core.inputs) (rows_of inputs) → HaveRates (rates_for bounds is.core.inputs) (rows_of inputs)
        → (tick : ℤ) → CellStandsFor (10 ^ is.decimals) ((meaning (rows_of inputs) is.core.defs (emitted_number is.core)).cell tick)
        ((exact_output is.core inputs said).cell tick) }
{
    loaded_queries_keep_meaning();
}
