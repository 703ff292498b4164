// From a text to the pipeline that it is.
ghost use Rattle.std.specs.Prelude.{◌≡◌, ◌≢◌, ◌⊎◌, IfOk, IfErr, MatchResult};
ghost use Rattle.tilt_operators.specs.Flow.{FlowTree};
ghost use Rattle.tilt_operators.specs.Steps.{IsFlowOf, IsFlowText, IsRefused, IsRefusedText};
ghost use Rattle.tilt_operators.specs.declared.fault.FlowFault.{FlowFault};
ghost use Rattle.tilt_syntax.specs.Query.{kinds, AreSound};

use crate::fault::FlowFault;
use crate::flow::Flow;
use crate::steps::read_parts;
use crate::typed::first_untyped;
use std::alloc::Global;
use tilt_lexer::Token;
use tilt_syntax::keep_tokens;

/// The pipeline that the text is. Errors come in this order. First are `BadByte` and `BigNumber`, as `lex` has them. Then comes `BadStep`
/// of the first step that breaks a rule, if there is one. Last is `StepType` of the first step whose expression hasn't the type that the
/// step asks for. Tokens are cut into steps after each `;`, and what follows the last `;` is also a step. If there are no tokens at all,
/// step 1 is bad. However long the text is, it takes memory only for the tokens that `keep_tokens` keeps.
pub fn read_flow(alloc: Global, bytes: &[u8]) -> Result<Flow, FlowFault>
    ensures flow { IfOk result (λ flow. IsFlowText bytes.now flow) }
    ensures faulty { IfErr result (λ fault. fault ≢ FlowFault.OutOfMemory → IsRefusedText bytes.now fault) }

    // Nothing else is: no other pipeline, and no other fault.
    ensures only { (flow : FlowTree) → IsFlowText bytes.now flow →
        MatchResult result (λ found. found ≡ flow) (λ fault. fault ≡ FlowFault.OutOfMemory) }
    ensures first { (fault : FlowFault) → IsRefusedText bytes.now fault →
        MatchResult result (λ _. ⊥) (λ found. (found ≡ fault) ⊎ (found ≡ FlowFault.OutOfMemory)) }
{
    let tokens = keep_tokens(alloc, bytes)?;
    let flow = flow_of(alloc, &tokens)?;
    Ok(flow)
}

// The pipeline that the tokens are, or the fault for which they are none.
fn flow_of(alloc: Global, tokens: &[Token]) -> Result<Flow, FlowFault>
    requires { AreSound (kinds tokens.now) }
    ensures flow { IfOk result (λ flow. IsFlowOf (kinds tokens.now) flow) }
    ensures faulty { IfErr result (λ fault. fault ≢ FlowFault.OutOfMemory → IsRefused (kinds tokens.now) fault) }
{
    let (first, steps, domain) = read_parts(alloc, tokens)?;
    if let Some(step) = first_untyped(alloc, &steps)? {
        return Err(FlowFault::StepType { step });
    }
    Ok(Flow::new(first, steps, domain))
}
