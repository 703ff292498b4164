// The runs of a feed with keys, line by line.
ghost use Rattle.std.specs.Prelude.{◌≡◌, ◌++◌, ℕ, IfErr, IfOk, OnErr, OnOk};
ghost use Rattle.tilt_keyed_line.specs.Feeds.{KeyedFeed, empty_keyed_feed};
ghost use Rattle.tilt_keyed_run.specs.Output.{address_output};
ghost use Rattle.tilt_live_keys.specs.Output.{after_heard, heard, heard_exceeds, heard_fault, is_header};
ghost use Rattle.tilt_live_keys.specs.Recipe.{key_added, key_first};
ghost use Rattle.tilt_live_keys.specs.Report.{keyed_report_of};
ghost use Rattle.tilt_live_keys.specs.Runs.{AreLinesOf};
ghost use Rattle.tilt_live_keys.specs.Stops.{StopsIfFull, stop_of_halt};
ghost use Rattle.tilt_live_keys.specs.Taken.{HasTakenLine};
ghost use Rattle.tilt_live_keys.specs.declared.key_recipe.KeyRecipe.{KeyRecipe};
ghost use Rattle.tilt_serving.specs.Reported.{Reported};

use crate::key_live::KeyLive;
use crate::key_recipe::KeyRecipe;
use crate::report::put_report;
use std::alloc::Global;
use tilt_feed_form::BadFeedLine;
use tilt_feed_text::{BadLine, LINE};
use tilt_keyed_run::{BadKeyedLine, Halt, KeyedRun};
use tilt_outside::Sink;
use tilt_serving::Stop;

// The runs of all keys, and what is written for the lines that they take.
#[derive(Drop)]
pub(crate) struct KeyedLines {
    pub(crate) recipe: KeyRecipe,
    pub(crate) runs: KeyedRun<KeyLive>,
    // How many lines were taken, as far as the count goes.
    pub(crate) number: u64,
    // What wasn't written to a port yet.
    pub(crate) output: Vec<u8>,
}

// A line that is too long.
const TOO_LONG: BadKeyedLine<BadFeedLine> = BadKeyedLine::OfKey {
    why: BadFeedLine::Rows {
        why: BadLine::TooLong,
    },
};

impl KeyedLines {
    // The runs before the first line.
    pub(crate) fn new(alloc: Global, recipe: KeyRecipe) -> KeyedLines
        ensures { AreLinesOf result recipe 0 empty_keyed_feed }
    {
        let runs = KeyedRun::new(alloc, recipe.max_keys);
        KeyedLines {
            recipe,
            runs,
            number: 0,
            output: Vec::new(alloc),
        }
    }

    // Takes a line without its LF: it appends what is written for it to its output, and reports it if it is bad.
    pub(crate) fn take<E: Sink>(
        &mut self,
        alloc: Global,
        line: &[u8],
        err: &mut E,
    ) -> Result<(), Stop>
        requires runs { (recipe : KeyRecipe) × (number : ℕ) × (feed : KeyedFeed) × AreLinesOf self.old recipe number feed }
        requires lines { (n : ℕ) → E.takes err.old n }
        ensures taken { (recipe : KeyRecipe) (number : ℕ) (feed : KeyedFeed) → AreLinesOf self.old recipe number feed
            → HasTakenLine E.tells E.written E.faults recipe err.old err.new self.old.output.items self.new.output.items
            (λ n f. AreLinesOf self.new recipe n f) number feed (heard number line.now) result }
        ensures no_write_fault { IfErr result (λ stop. stop ≡ Stop.WriteFault → ⊥) }
        ensures takes { (n : ℕ) → E.takes err.new n }
    {
        let length = self.output.len();
        let why = self.pass(alloc, line)?;
        self.report(why, err);
        if self.recipe.strict && why.is_some() {
            self.output.truncate(length);
            return Err(Stop::BadLine);
        }
        self.number = self.number.saturating_add(1);
        Ok(())
    }

    // Hands a line to the runs, unless it is skipped, and returns why it is bad, if it is. It isn't counted yet.
    fn pass(
        &mut self,
        alloc: Global,
        line: &[u8],
    ) -> Result<Option<BadKeyedLine<BadFeedLine>>, Stop>
        requires { (recipe : KeyRecipe) × (number : ℕ) × (feed : KeyedFeed) × AreLinesOf self.old recipe number feed }
        ensures bad { (recipe : KeyRecipe) (number : ℕ) (feed : KeyedFeed) → AreLinesOf self.old recipe number feed
            → IfOk result (λ why. why ≡ heard_fault recipe (heard number line.now) feed) }
        ensures output { (recipe : KeyRecipe) (number : ℕ) (feed : KeyedFeed) → AreLinesOf self.old recipe number feed
            → OnOk result (self.new.output.items ≡ self.old.output.items
            ++ address_output (key_first recipe) (key_added recipe) (heard number line.now).address feed) }
        ensures goes_on { (recipe : KeyRecipe) (number : ℕ) (feed : KeyedFeed) → AreLinesOf self.old recipe number feed
            → OnOk result (AreLinesOf self.new recipe number (after_heard (heard number line.now) feed)) }
        ensures stops { (recipe : KeyRecipe) (number : ℕ) (feed : KeyedFeed) → AreLinesOf self.old recipe number feed
            → StopsIfFull result (heard_exceeds recipe (heard number line.now) feed) }
        ensures unwritten { OnErr result (self.new.output.items ≡ self.old.output.items) }
        ensures rest { (self.new.recipe ≡ self.old.recipe) × (self.new.number ≡ self.old.number) }
    {
        if line.len() > LINE {
            return Ok(Some(TOO_LONG));
        }
        if self.number == 0 && is_header(line) {
            return Ok(None);
        }
        match self.runs.take(alloc, &self.recipe, line, &mut self.output) {
            Ok(why) => Ok(why),
            Err(halt) => Err(stop_of_halt(halt)),
        }
    }

    // Reports why the line after those that were taken is bad, if it is. A fault of the sink changes nothing.
    pub(crate) fn report<E: Sink>(&self, why: Option<BadKeyedLine<BadFeedLine>>, err: &mut E)
        requires { (n : ℕ) → E.takes err.old n }
        ensures reported { Reported E.tells E.written E.faults err.old err.new (keyed_report_of self.now.number why) }
        ensures takes { (n : ℕ) → E.takes err.new n }
    {
        if let Some(why) = why {
            let _ = put_report(err, self.number.saturating_add(1), why);
        }
    }
}

// Why the run stops if the runs of the keys do.
fn stop_of_halt(halt: Halt) -> Stop
    ensures { result ≡ stop_of_halt halt }
{
    match halt {
        Halt::TooManyKeys => Stop::TooManyKeys,
        Halt::OutOfMemory => Stop::OutOfMemory,
    }
}

// Whether a line is a header.
fn is_header(line: &[u8]) -> bool
    ensures { result ≡ is_header line.now }
{
    line == b"key,name,start,end,value".as_slice()
        || line == b"key,name,start,end,value\r".as_slice()
}
