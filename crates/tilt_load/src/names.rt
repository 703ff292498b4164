// Names that the arguments give, against the names of the inputs.
ghost use Rattle.std.specs.Prelude.{◌≡◌, ◌<◌, ℕ, [], List, length, map, slice_index_or, MatchOption, None, Some};
ghost use Rattle.std.specs.Option.{option_copied};
ghost use Rattle.tilt_load.specs.Inputs.{faulty_among, first_unbound, first_unexpected, is_among, name_told};

use tilt_cli::{Bind, CutBind};
use tilt_lexer::Name;

// What the arguments give to a name.
pub(crate) trait Named {
    // The bytes of the name.
    ghost named: { Self → List ℕ };

    // The name.
    fn name(&self) -> &Name
        ensures { result.now ≡ named self.now };
}

impl Named for Bind {
    ghost named = { λ bind. bind.name };

    fn name(&self) -> &Name {
        &self.name
    }
}

impl Named for CutBind {
    ghost named = { λ bind. bind.name };

    fn name(&self) -> &Name {
        &self.name
    }
}

/// The name to report if the arguments don't give something to each input once, and to nothing else.
#[derive(Clone, Copy)]
pub(crate) enum FaultyName<'a> {
    /// This name in the arguments is no input's, or is given a second time.
    Given(&'a Name),
    /// The arguments give nothing to the input at this place, counted from 0.
    Input(usize),
}

/// The first name in the arguments that isn't an input's or is given twice, or else the place of the first input whose name the arguments
/// don't have. Returns `None` if there is neither.
pub(crate) fn faulty_name<'a, N: Named>(inputs: &[Name], given: &'a [N]) -> Option<FaultyName<'a>>
    ensures told { MatchOption result
        (faulty_among inputs.now (map N.named given.now) ≡ None)
        (λ faulty. faulty_among inputs.now (map N.named given.now) ≡ Some (name_told inputs.now faulty)) }
    ensures place { (at : ℕ) → result ≡ Some (FaultyName.Input at) → at < length inputs.now }
{
    if let Some(name) = unexpected_name(inputs, given) {
        return Some(FaultyName::Given(name));
    }
    let place = unnamed_input(inputs, given)?;
    Some(FaultyName::Input(place))
}

// The first name in the arguments that isn't an input's, or was given before.
fn unexpected_name<'a, N: Named>(inputs: &[Name], given: &'a [N]) -> Option<&'a Name>
    ensures { option_copied result ≡ first_unexpected inputs.now [] (map N.named given.now) }
{
    for (place, item) in given.iter().enumerate() {
        let name = item.name();
        if !is_input(inputs, name.bytes()) || is_named(&given[..place], name.bytes()) {
            return Some(name);
        }
    }
    None
}

// The place of the first input whose name the arguments don't have.
fn unnamed_input<N: Named>(inputs: &[Name], given: &[N]) -> Option<usize>
    ensures { MatchOption result
        (first_unbound (map N.named given.now) inputs.now ≡ None)
        (λ place. (place < length inputs.now)
        × (first_unbound (map N.named given.now) inputs.now ≡ Some (slice_index_or inputs.now place []))) }
{
    for (place, input) in inputs.iter().enumerate() {
        if !is_named(given, input.bytes()) {
            return Some(place);
        }
    }
    None
}

// Whether an input has the name.
fn is_input(inputs: &[Name], name: &[u8]) -> bool
    ensures { result ≡ is_among name.now inputs.now }
{
    inputs.iter().any(|input| input.bytes() == name)
}

// Whether the arguments have the name.
fn is_named<N: Named>(given: &[N], name: &[u8]) -> bool
    ensures { result ≡ is_among name.now (map N.named given.now) }
{
    for item in given {
        if item.name().bytes() == name {
            return true;
        }
    }
    false
}
