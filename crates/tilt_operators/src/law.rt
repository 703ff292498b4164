// Laws of pipelines and their queries.
ghost use Rattle.std.specs.Prelude.{◌≡◌, ◌⊎◌, List, Ok};
ghost use Rattle.tilt_lexer.specs.declared.token.Tok.{Tok};
ghost use Rattle.tilt_operators.specs.Desugared.{query_of};
ghost use Rattle.tilt_operators.specs.Flow.{FlowTree};
ghost use Rattle.tilt_operators.specs.Law.{KeepsMeaning};
ghost use Rattle.tilt_operators.specs.Steps.{IsFlow, IsFlowOf, IsRefused};
ghost use Rattle.tilt_operators.specs.declared.fault.FlowFault.{FlowFault};
ghost use Rattle.tilt_syntax.specs.Query.{IsQuery};
ghost use Rattle.tilt_types.specs.Checked.{checked, core_of};

/// This does nothing. Its clauses are laws of the definitions. On all series the core of a pipeline's query gives what the pipeline
/// gives. The query is one that some tokens of a text read as. It is well formed, so that `check` gives its core.
pub fn query_keeps_meaning()
    ensures law { (flow : FlowTree) → IsFlow flow → KeepsMeaning flow (core_of (query_of flow)) }
    ensures parsed { (flow : FlowTree) → IsFlow flow → IsQuery (query_of flow) }
    ensures accepted { (flow : FlowTree) → IsFlow flow → checked (query_of flow) ≡ Ok (core_of (query_of flow)) }
{}

/// This does nothing. Its clauses are laws of the definitions: tokens are one pipeline, or are rejected for one fault, and not both.
pub fn tokens_have_one_outcome()
    ensures one { (ts : List Tok) (flow other : FlowTree) → IsFlowOf ts flow → IsFlowOf ts other → flow ≡ other }
    ensures first { (ts : List Tok) (fault other : FlowFault) → IsRefused ts fault → IsRefused ts other → fault ≡ other }
    ensures some { (ts : List Tok) → ((flow : FlowTree) × IsFlowOf ts flow) ⊎ ((fault : FlowFault) × IsRefused ts fault) }
    ensures either { (ts : List Tok) (flow : FlowTree) (fault : FlowFault) → IsFlowOf ts flow → IsRefused ts fault → ⊥ }
{}
