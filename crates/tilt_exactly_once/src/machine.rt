// What turns the bytes of a feed into output.
ghost use Rattle.std.specs.Prelude.{◌≡◌, ◌++◌, ℕ, List, [], length, IfErr, IfOk, OnOk};
ghost use Rattle.tilt_outside.specs.Counts.{added_count};
ghost use Rattle.tilt_store.specs.Commit.{Commit};

use crate::halt::Stop;
use crate::refusal::Refusal;
use std::alloc::Global;
use tilt_outside::Sink;

/// A machine before the first byte of its feed, and what it writes before that.
#[derive(Drop)]
pub struct Started<M> {
    pub machine: M,
    pub output: Vec<u8>,
}

/// A machine that goes on from a state, and how many bytes of output were written before.
#[derive(Drop)]
pub struct Resumed<M> {
    pub machine: M,
    pub written: u64,
}

/// What turns the bytes of a feed into output, and can hand on its state as text. Code that is generic over a machine knows only this of
/// it.
pub trait Machine {
    ghost use Rattle.tilt_exactly_once.specs.declared.refusal.Refusal.{Refusal};

    /// What a machine is made from.
    type Recipe: Drop;

    /// What a machine is of, such as a query and its options.
    ghost Of: { Type 0 };

    /// What the machine of a recipe is of.
    ghost of: { Self.Recipe → Of };

    /// Whether a text is rejected for this reason.
    ghost rejects: { Self.Recipe → List ℕ → Refusal → Type 0 };

    /// Whether it is the machine of that after these bytes of the feed.
    ghost is: { Self → Of → List ℕ → Type 0 };

    /// Whether it can go on.
    ghost sound: { Self → Type 0 };

    /// The output for bytes of the feed.
    ghost output: { Of → List ℕ → List ℕ };

    /// Whether it is the commit of bytes of the feed.
    ghost commits: { Of → List ℕ → Commit → Type 0 };

    /// Whether bytes of the feed end badly, if bad lines stop the machine.
    ghost stops: { Of → List ℕ → Type 0 };

    /// Whether a state can count the bytes and their output.
    ghost fits: { Of → List ℕ → Type 0 };

    /// Takes the next piece of the feed, and reports bad lines. It returns the output for the piece. After an error the machine is of no
    /// use.
    fn take<E: Sink>(&mut self, alloc: Global, piece: &[u8], err: &mut E) -> Result<Vec<u8>, Stop>
        requires sound { sound self.old }
        requires lines { (n : ℕ) → E.takes err.old n }
        ensures is { (of : Of) (bytes : List ℕ) → is self.old of bytes → OnOk result (is self.new of (bytes ++ piece.now)) }
        ensures adds { (of : Of) (bytes : List ℕ) → is self.old of bytes
            → IfOk result (λ out. output of (bytes ++ piece.now) ≡ output of bytes ++ out.items) }
        ensures stops { (of : Of) (bytes : List ℕ) → is self.old of bytes
            → IfErr result (λ stop. stop ≡ Stop.BadLine → stops of (bytes ++ piece.now)) }
        ensures short { IfErr result (λ stop. stop ≡ Stop.TooLong → ⊥) }
        ensures sound { sound self.new }
        ensures takes { (n : ℕ) → E.takes err.new n };

    /// Reports bytes at the end of the feed that are no line.
    fn end<E: Sink>(&self, err: &mut E) -> Result<(), Stop>
        requires lines { (n : ℕ) → E.takes err.old n }
        ensures stops { (of : Of) (bytes : List ℕ) → is self.now of bytes → IfErr result (λ stop. stop ≡ Stop.BadLine → stops of bytes) }
        ensures short { IfErr result (λ stop. stop ≡ Stop.TooLong → ⊥) }
        ensures takes { (n : ℕ) → E.takes err.new n };

    /// How many bytes of the feed it has taken, as far as the count goes.
    fn taken(&self) -> u64
        ensures { (of : Of) (bytes : List ℕ) → is self.now of bytes → result ≡ added_count 0 (length bytes) };

    /// The text of its state, if so many bytes of output were written.
    fn state(&mut self, alloc: Global, written: u64) -> Result<Vec<u8>, Stop>
        requires { sound self.old }
        ensures commits { (of : Of) (bytes : List ℕ) → is self.old of bytes → written ≡ added_count 0 (length (output of bytes))
            → IfOk result (λ text. commits of bytes (record { output = output of bytes; state = text.items })) }
        ensures is { (of : Of) (bytes : List ℕ) → is self.old of bytes → OnOk result (is self.new of bytes) }
        ensures long { (of : Of) (bytes : List ℕ) → is self.old of bytes → written ≡ added_count 0 (length (output of bytes))
            → IfErr result (λ stop. stop ≡ Stop.TooLong → fits of bytes → ⊥) }
        ensures good { IfErr result (λ stop. stop ≡ Stop.BadLine → ⊥) }
        ensures sound { sound self.new };

    /// The machine before the first byte, with what it writes before that.
    fn start(alloc: Global, recipe: Self::Recipe) -> Result<Started<Self>, Stop>
        ensures is { IfOk result (λ started. is started.machine (of recipe) []) }
        ensures output { IfOk result (λ started. started.output.items ≡ output (of recipe) []) }
        ensures sound { IfOk result (λ started. sound started.machine) };

    /// The machine that goes on from the state that the text spells.
    fn resume(alloc: Global, recipe: Self::Recipe, text: &[u8]) -> Result<Resumed<Self>, Refusal>
        ensures is { (bytes : List ℕ) (commit : Commit) → commits (of recipe) bytes commit → text.now ≡ commit.state
            → IfOk result (λ resumed. is resumed.machine (of recipe) bytes) }
        ensures written { (bytes : List ℕ) (commit : Commit) → commits (of recipe) bytes commit → text.now ≡ commit.state
            → IfOk result (λ resumed. resumed.written ≡ added_count 0 (length commit.output)) }
        ensures taken { (bytes : List ℕ) (commit : Commit) → commits (of recipe) bytes commit → text.now ≡ commit.state
            → IfErr result (λ refusal. refusal ≡ Refusal.OutOfMemory) }
        ensures rejected { IfErr result (λ refusal. rejects recipe text.now refusal) }
        ensures sound { IfOk result (λ resumed. sound resumed.machine) };

    /// A commit has the output for its bytes.
    ghost has_output: { (of : Of) (bytes : List ℕ) (commit : Commit) → commits of bytes commit → commit.output ≡ output of bytes };

    /// And its state isn't empty.
    ghost has_state: { (of : Of) (bytes : List ℕ) (commit : Commit) → commits of bytes commit → commit.state ≡ [] → ⊥ };
}
