// The law of the translation.
ghost use Rattle.std.specs.Prelude.{◌≡◌, ℤ, List, Ok, map};
ghost use Rattle.tilt_core.specs.Meaning.{body_of, sources};
ghost use Rattle.tilt_fractions.specs.Exact.{CellStandsFor};
ghost use Rattle.tilt_stream.specs.Stream.{Stream, stream_of};
ghost use Rattle.tilt_units.specs.DecimalTree.{UnitTree};
ghost use Rattle.tilt_units.specs.Exact.{ExactSource, ScaledRows, exact_body, exact_sources, quantities_of, rows_of, scale_in, scales_of};
ghost use Rattle.tilt_units.specs.Law.{Chosen, DefinitionsHaveScales, InputsHaveScales, LiteralsHaveScales, QueryStaysWithin};
ghost use Rattle.tilt_units.specs.Law.{SourcesHaveScales, SourcesStand, StaysWithin};
ghost use Rattle.tilt_units.specs.Scaling.{ScaledTree, scaled};
ghost use Rattle.tilt_units.specs.Translation.{ScaledQuery, UnitDefinition, translated};
ghost use Rattle.tilt_units.specs.declared.place.Place.{Place};

/// This does nothing. Its clauses are the law of the translation of a query that has one. Choose some ticks of each source. At a
/// chosen tick of a definition no node of its translation may leave 64 bits, and it may read its sources at chosen ticks only. Take
/// the cell of the query over whole numbers at a chosen tick, and divide it by the scale of its source. It is the exact cell of the
/// query in units, null for null. The marks are the same at every tick. All scales that are given must be positive.
pub fn translation_keeps_meaning()
    // An expression at a tick, over sources that represent exact ones.
    ensures expression { (chosen : Chosen) (xs : List Stream) (exact : List ExactSource) (place : Place) (e : UnitTree) (x : ScaledTree)
        (tick : ℤ) → SourcesHaveScales exact → LiteralsHaveScales e → SourcesStand chosen xs exact
        → scaled (quantities_of exact) place e ≡ Ok x → StaysWithin chosen xs tick x.tree
        → CellStandsFor (scale_in x.quantity) ((body_of xs x.tree).cell tick) ((exact_body exact place e).cell tick) }
    ensures marks { (chosen : Chosen) (xs : List Stream) (exact : List ExactSource) (place : Place) (e : UnitTree) (x : ScaledTree)
        (tick : ℤ) → SourcesStand chosen xs exact → scaled (quantities_of exact) place e ≡ Ok x
        → (body_of xs x.tree).mark tick ≡ (exact_body exact place e).mark tick }
    // A whole query: each of its sources, inputs and definitions, whatever the rows of the inputs are.
    ensures query { (chosen : Chosen) (inputs : List ScaledRows) (defs : List UnitDefinition) (query : ScaledQuery)
        → InputsHaveScales inputs → DefinitionsHaveScales defs → translated (scales_of inputs) defs ≡ Ok query
        → QueryStaysWithin chosen (map stream_of (rows_of inputs)) query.defs
        → SourcesStand chosen (sources (rows_of inputs) query.defs) (exact_sources inputs defs) }
    // The quantities of the translation are those of the exact sources.
    ensures quantities { (inputs : List ScaledRows) (defs : List UnitDefinition) (query : ScaledQuery)
        → DefinitionsHaveScales defs → translated (scales_of inputs) defs ≡ Ok query
        → query.quantities ≡ quantities_of (exact_sources inputs defs) }
{}
