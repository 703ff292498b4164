// The laws of query files in units.
ghost use Rattle.std.specs.Prelude.{◌≡◌, ◌^◌, ℕ, ℤ, List, map, true};
ghost use Rattle.tilt_core.specs.Core.{CoreParts, emitted_number};
ghost use Rattle.tilt_core.specs.Meaning.{meaning};
ghost use Rattle.tilt_fractions.specs.Exact.{CellStandsFor};
ghost use Rattle.tilt_input_scales.specs.Scales.{ScalesValue};
ghost use Rattle.tilt_stream.specs.Stream.{stream_of};
ghost use Rattle.tilt_syntax.specs.Tree.{StatementTree};
ghost use Rattle.tilt_unit_load.specs.UnitFile.{IsLoadedInUnits, RefusesUnits, exact_output};
ghost use Rattle.tilt_unit_load.specs.UnitReport.{UnitReport};
ghost use Rattle.tilt_unit_text.specs.Said.{IsInUnits, QueryInUnits};
ghost use Rattle.tilt_units.specs.Exact.{ScaledRows, rows_of, scales_of};
ghost use Rattle.tilt_units.specs.Law.{Chosen, InputsHaveScales, QueryStaysWithin};

/// This does nothing. Its clauses say that a file is one query over whole numbers, with one number of decimals, or that it is rejected for
/// one reason; and not both.
pub fn files_in_units_are_one_thing()
    ensures one { (bytes : List ℕ) (scales : ScalesValue) (p q : List StatementTree) (c d : CoreParts) (m n : ℕ)
        → IsLoadedInUnits bytes scales p c m → IsLoadedInUnits bytes scales q d n → (p ≡ q) × (c ≡ d) × (m ≡ n) }
    ensures not_both { (name bytes : List ℕ) (scales : ScalesValue) (query : List StatementTree) (core : CoreParts) (decimals : ℕ)
        (report : UnitReport) → IsLoadedInUnits bytes scales query core decimals → RefusesUnits name bytes scales report → ⊥ }
    ensures one_reason { (name bytes : List ℕ) (scales : ScalesValue) (r s : UnitReport) → RefusesUnits name bytes scales r
        → RefusesUnits name bytes scales s → r ≡ s }
{}

/// This does nothing. Its clauses are the law of query files in units. Choose some ticks of each source. At a chosen tick of a definition
/// no node of it may leave 64 bits over whole numbers, and it may read its sources at chosen ticks only. Take the cell that the query over
/// whole numbers emits at a chosen tick. Divide it by the power of ten with as many zeros as its output has decimals. It is then the exact
/// cell that the query in units emits, null for null. The marks are the same at every tick.
pub fn loaded_queries_keep_meaning()
    ensures cells { (chosen : Chosen) (bytes : List ℕ) (scales : ScalesValue) (query : List StatementTree) (core : CoreParts)
        (decimals : ℕ) (said : QueryInUnits) (inputs : List ScaledRows) → IsLoadedInUnits bytes scales query core decimals
        → IsInUnits scales bytes said → scales_of inputs ≡ said.scales → InputsHaveScales inputs
        → QueryStaysWithin chosen (map stream_of (rows_of inputs)) core.defs
        → (tick : ℤ) → chosen (emitted_number core) tick ≡ true
        → CellStandsFor (10 ^ decimals) ((meaning (rows_of inputs) core.defs (emitted_number core)).cell tick)
        ((exact_output core inputs said).cell tick) }
    ensures marks { (chosen : Chosen) (bytes : List ℕ) (scales : ScalesValue) (query : List StatementTree) (core : CoreParts)
        (decimals : ℕ) (said : QueryInUnits) (inputs : List ScaledRows) → IsLoadedInUnits bytes scales query core decimals
        → IsInUnits scales bytes said → scales_of inputs ≡ said.scales → InputsHaveScales inputs
        → QueryStaysWithin chosen (map stream_of (rows_of inputs)) core.defs
        → (tick : ℤ) → (meaning (rows_of inputs) core.defs (emitted_number core)).mark tick ≡ (exact_output core inputs said).mark tick }
{}
