// What has a name.
ghost use Rattle.std.specs.Prelude.{◌≡◌, ℕ, List, Some};
ghost use Rattle.std.specs.List.{list_any};
ghost use Rattle.std.specs.Str.{bytes_eq};
ghost use Rattle.tilt_reading_options.specs.Parts.{first_missing, has_name};
ghost use Rattle.tilt_reading_options.specs.Results.{IsMissing};

use crate::fault::FormFault;
use crate::input_convention::InputConvention;
use tilt_input_scales::InputScale;
use tilt_lexer::Name;

// What is said of the input with a name.
pub(crate) trait Named {
    // The bytes of the name.
    ghost name_of: { Self → List ℕ };

    // The name.
    fn name(&self) -> &Name
        ensures { result.now ≡ name_of self.now };
}

impl Named for InputScale {
    ghost name_of = { λ one. one.name };

    fn name(&self) -> &Name {
        &self.name
    }
}

impl Named for InputConvention {
    ghost name_of = { λ one. one.name };

    fn name(&self) -> &Name {
        &self.name
    }
}

// Whether one of these has a name.
pub(crate) fn has_name<N: Named>(items: &[N], name: &Name) -> bool
    ensures { result ≡ has_name N.name_of items.now name.now }
{
    for at in 0..items.len() {
        if items[at].name().bytes() == name.bytes() {
            return true;
        }
    }
    false
}

// Fails at the first name of these that is no input: `NoInput` has it. `OutOfMemory` comes if memory runs out, and for no other reason.
pub(crate) fn check_all<N: Named>(items: &[N], inputs: &[Name]) -> Result<(), FormFault>
    ensures { IsMissing result (first_missing N.name_of items.now inputs.now) }
{
    for at in 0..items.len() {
        let name = items[at].name();
        if !is_among(inputs, name) {
            return fail_missing(name);
        }
    }
    Ok(())
}

// Fails, since a name is missing.
fn fail_missing(name: &Name) -> Result<(), FormFault>
    ensures { IsMissing result (Some name.now) }
{
    let name = name.copy()?;
    Err(FormFault::NoInput { name })
}

// Whether one of the inputs has a name.
fn is_among(inputs: &[Name], name: &Name) -> bool
    ensures { result ≡ list_any (bytes_eq name.now) inputs.now }
{
    for at in 0..inputs.len() {
        if name.bytes() == inputs[at].bytes() {
            return true;
        }
    }
    false
}
