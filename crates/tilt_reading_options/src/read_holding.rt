// From texts to how long readings hold.
ghost use Rattle.std.specs.Prelude.{◌≡◌, ◌<◌, Some, None, IfOk, if◌then◌else◌};
ghost use Rattle.std.specs.Option.{ForSome};
ghost use Rattle.tilt_conventions.specs.Laws.{HoldsATick};
ghost use Rattle.tilt_reading_options.specs.Holding.{age_in, ages_read, are_events, event_in, with_age, with_convention, with_event};

use crate::conventions::Conventions;
use crate::duration::read_ticks;
use crate::input_convention::InputConvention;
use crate::named::has_name;
use crate::part_reader::{PartReader, cut_name, cut_text, take_parts};
use std::alloc::{AllocError as OutOfMemory, Global};
use tilt_conventions::Convention;
use tilt_lexer::Name;

// The ages that a text says, if it says some, with ticks of a length. In a text with names the readings of the others hold until the next
// one.
pub(crate) fn read_ages(
    alloc: Global,
    text: &str,
    tick: u64,
) -> Result<Option<Conventions>, OutOfMemory>
    requires { 0 < tick }
    ensures { IfOk result (λ conventions. conventions ≡ ages_read tick text.now) }
{
    if let Some(age) = read_ticks(text.as_bytes(), tick) {
        let others = Convention::Hold { max_age: Some(age) };
        return Ok(Some(Conventions::new(alloc, others)));
    }
    let mut conventions = Conventions::new(alloc, Convention::Hold { max_age: None });
    if take_parts(alloc, &AgeParts { tick }, text, &mut conventions)? {
        Ok(Some(conventions))
    } else {
        Ok(None)
    }
}

// Reads the parts NAME=D of ages, with ticks of a length.
#[derive(Drop)]
struct AgeParts {
    tick: u64,
    ghost some: { 0 < tick },
}

impl PartReader<Conventions> for AgeParts {
    ghost with_part = { λ reader. with_age reader.tick };

    fn take_part(
        &self,
        alloc: Global,
        part: &str,
        table: &mut Conventions,
    ) -> Result<bool, OutOfMemory> {
        let Some(one) = read_age(alloc, part, self.tick)? else {
            return Ok(false);
        };
        add_convention(one, table)
    }
}

// Reads the parts NAME of events.
#[derive(Drop)]
pub(crate) struct EventParts;

impl PartReader<Conventions> for EventParts {
    ghost with_part = { λ _. with_event };

    fn take_part(
        &self,
        alloc: Global,
        part: &str,
        table: &mut Conventions,
    ) -> Result<bool, OutOfMemory> {
        let Some(one) = read_event(alloc, part)? else {
            return Ok(false);
        };
        add_convention(one, table)
    }
}

// Whether a text has events: words, and none of them twice.
pub(crate) fn are_events(alloc: Global, text: &str) -> Result<bool, OutOfMemory>
    ensures { IfOk result (λ are. are ≡ are_events text.now) }
{
    let mut alone = Conventions::new(alloc, Convention::Event);
    take_parts(alloc, &EventParts, text, &mut alone)
}

// Adds a convention. Returns `false` if there is one of its name.
fn add_convention(one: InputConvention, conventions: &mut Conventions) -> Result<bool, OutOfMemory>
    requires { HoldsATick one.convention }
    ensures { IfOk result (λ taken. (if taken then Some conventions.new else None) ≡ with_convention conventions.old (Some one)) }
{
    if has_name(conventions.named(), &one.name) {
        return Ok(false);
    }
    conventions.push(one)?;
    Ok(true)
}

// The age that a part says.
fn read_age(alloc: Global, part: &str, tick: u64) -> Result<Option<InputConvention>, OutOfMemory>
    requires { 0 < tick }
    ensures said { IfOk result (λ one. one ≡ age_in tick part.now) }
    ensures age { IfOk result (λ one. ForSome one (λ one. HoldsATick one.convention)) }
{
    let Some(age) = read_ticks(cut_text(part).as_bytes(), tick) else {
        return Ok(None);
    };
    let convention = Convention::Hold { max_age: Some(age) };
    match Name::read(alloc, cut_name(part).as_bytes())? {
        Some(name) => Ok(Some(InputConvention { name, convention })),
        None => Ok(None),
    }
}

// The event that a part says.
fn read_event(alloc: Global, part: &str) -> Result<Option<InputConvention>, OutOfMemory>
    ensures said { IfOk result (λ one. one ≡ event_in part.now) }
    ensures age { IfOk result (λ one. ForSome one (λ one. HoldsATick one.convention)) }
{
    let convention = Convention::Event;
    match Name::read(alloc, part.as_bytes())? {
        Some(name) => Ok(Some(InputConvention { name, convention })),
        None => Ok(None),
    }
}
