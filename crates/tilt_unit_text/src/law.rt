// The laws of texts.
ghost use Rattle.std.specs.Prelude.{◌≡◌, ◌≤◌, List, Ok, [], ℕ, length, map};
ghost use Rattle.tilt_core.specs.Core.{CoreParts};
ghost use Rattle.tilt_core.specs.Meaning.{sources};
ghost use Rattle.tilt_stream.specs.Stream.{stream_of};
ghost use Rattle.tilt_input_scales.specs.Scales.{AreScales, ScalesValue};
ghost use Rattle.tilt_lexer.specs.declared.token.Tok.{Tok};
ghost use Rattle.tilt_syntax.specs.Grammar.{IsStatement};
ghost use Rattle.tilt_syntax.specs.Query.{AreSound, IsQuery};
ghost use Rattle.tilt_syntax.specs.Text.{IsQueryText};
ghost use Rattle.tilt_syntax.specs.Tree.{StatementTree};
ghost use Rattle.tilt_types.specs.Checked.{checked};
ghost use Rattle.tilt_units.specs.Exact.{ScaledRows, exact_sources, quantities_of, rows_of, scales_of};
ghost use Rattle.tilt_units.specs.Law.{Chosen, InputsHaveScales, QueryStaysWithin, SourcesStand};
ghost use Rattle.tilt_units.specs.declared.quantity.Quantity.{Quantity};
ghost use Rattle.tilt_unit_text.specs.Points.{points_of};
ghost use Rattle.tilt_unit_text.specs.Reading.{Reads};
ghost use Rattle.tilt_unit_text.specs.Said.{IsInUnits, QueryInUnits};
ghost use Rattle.tilt_unit_text.specs.Size.{statement_size};
ghost use Rattle.tilt_unit_text.specs.Units.{HaveScaleOne, UnitParts};

/// This does nothing. Its clauses are the law of texts in units. A text that is read is one query in units. Choose some ticks of each
/// source. At a chosen tick of a definition no node of it may leave 64 bits over whole numbers, and it may read its sources at chosen
/// ticks only. Take the cell of the query over whole numbers at a chosen tick, and divide it by the scale of its source. It is the exact
/// cell of the query in units, null for null. The marks are the same at every tick.
pub fn read_texts_keep_meaning()
    // The query in units that a text is: there is one if the text is read, and there is never a second one.
    ensures said { (scales : ScalesValue) (text : List ℕ) (parts : UnitParts) → Reads scales text (Ok parts)
        → (said : QueryInUnits) × IsInUnits scales text said }
    ensures one { (scales : ScalesValue) (text : List ℕ) (a b : QueryInUnits) → IsInUnits scales text a → IsInUnits scales text b
        → a ≡ b }
    // It has the inputs of the query over whole numbers.
    ensures inputs { (scales : ScalesValue) (text : List ℕ) (parts : UnitParts) (said : QueryInUnits) → Reads scales text (Ok parts)
        → IsInUnits scales text said → parts.core.inputs ≡ said.inputs }
    // Each source, inputs and definitions, whatever the rows of the inputs are.
    ensures query { (chosen : Chosen) (scales : ScalesValue) (text : List ℕ) (parts : UnitParts) (said : QueryInUnits)
        (inputs : List ScaledRows) → Reads scales text (Ok parts) → IsInUnits scales text said
        → scales_of inputs ≡ said.scales → InputsHaveScales inputs
        → QueryStaysWithin chosen (map stream_of (rows_of inputs)) parts.core.defs
        → SourcesStand chosen (sources (rows_of inputs) parts.core.defs) (exact_sources inputs said.defs) }
    // The quantities, and so the scales, are those of the exact sources.
    ensures quantities { (scales : ScalesValue) (text : List ℕ) (parts : UnitParts) (said : QueryInUnits) (inputs : List ScaledRows)
        → Reads scales text (Ok parts) → IsInUnits scales text said → scales_of inputs ≡ said.scales
        → parts.quantities ≡ quantities_of (exact_sources inputs said.defs) }
    // Some text reads as the query over whole numbers, and it is well formed, with the core that is given.
    ensures whole { (scales : ScalesValue) (text : List ℕ) (parts : UnitParts) → AreScales scales → Reads scales text (Ok parts)
        → IsQuery parts.query × (checked parts.query ≡ Ok parts.core) }
    // No text of a statement has fewer tokens than its size.
    ensures size { (statement : StatementTree) (ts : List Tok) → AreSound ts → IsStatement ts statement
        → statement_size statement ≤ length ts }
{}

/// This does nothing. Its clause is the law of texts without points. Take such a text that is a well-formed query to `tilt`. If the scale
/// of each input is 1, the text in units is that query and its core.
pub fn whole_texts_keep_meaning()
    ensures { (scales : ScalesValue) (text : List ℕ) (query : List StatementTree) (core : CoreParts)
        → points_of text ≡ [] → IsQueryText text query → checked query ≡ Ok core → HaveScaleOne scales core.inputs
        → (quantities : List Quantity) × Reads scales text (Ok (record { query = query; core = core; quantities = quantities })) }
{}
