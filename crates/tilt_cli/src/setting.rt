// Options with what they are set to.
ghost use Rattle.std.specs.Prelude.{◌≡◌, ◌<◌, length, IfSome};
ghost use Rattle.std.specs.List.{list_any, position};
ghost use Rattle.std.specs.Str.{bytes_eq};

use crate::value::Value;

// An option and what it is set to.
#[derive(Drop)]
pub(crate) struct Setting {
    pub(crate) word: &'static str,
    pub(crate) value: Value,
}

// Whether the option is set.
pub(crate) fn is_among(settings: &[Setting], word: &str) -> bool
    ensures { result ≡ list_any (λ setting. bytes_eq setting.word.now word.now) settings.now }
{
    settings.iter().any(|setting| setting.word == word)
}

// Where the option is set.
pub(crate) fn place_of(settings: &[Setting], word: &str) -> Option<usize>
    ensures first { result ≡ position (λ setting. bytes_eq setting.word.now word.now) settings.now }
    ensures within { IfSome result (λ place. place < length settings.now) }
{
    settings.iter().position(|setting| setting.word == word)
}
