// The files that the arguments bind to names.
ghost use Rattle.std.specs.Prelude.{◌≡◌, ◌<◌, ℕ, length, MatchOption, None, Some};
ghost use Rattle.tilt_load.specs.Inputs.{faulty_name, file_of, name_told};
ghost use Rattle.tilt_load.specs.declared.names.FaultyName.TheVariants.{Input};
ghost use Rattle.tilt_cli.specs.Binding.{bindings_of};

use crate::names::{FaultyName, faulty_name};
use tilt_cli::Bind;
use tilt_lexer::Name;

/// The first bound name that isn't an input's name or is bound twice, or else the place of the first input that isn't bound. Returns
/// `None` if there is neither.
pub(crate) fn faulty_bind<'a>(inputs: &[Name], binds: &'a [Bind]) -> Option<FaultyName<'a>>
    ensures told { MatchOption result
        (faulty_name inputs.now (bindings_of binds.now) ≡ None)
        (λ faulty. faulty_name inputs.now (bindings_of binds.now) ≡ Some (name_told inputs.now faulty)) }
    ensures place { (at : ℕ) → result ≡ Some (Input at) → at < length inputs.now }
{
    faulty_name(inputs, binds)
}

/// The name of the file that is bound to a name; it is empty if no file is.
pub(crate) fn file_bound<'a>(binds: &'a [Bind], name: &Name) -> &'a str
    ensures { result.now ≡ file_of (bindings_of binds.now) name.now }
{
    for bind in binds {
        if bind.name.bytes() == name.bytes() {
            return bind.file.as_str();
        }
    }
    ""
}
