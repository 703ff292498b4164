// The windows of all reducers as one type.
ghost use Rattle.std.specs.Prelude.{◌≡◌, ◌<◌, [], ◌∷◌, ◌++◌, length, IfOk, OnOk};
ghost use Rattle.tilt_base.specs.Reduce.{numbers, reduce};
ghost use Rattle.tilt_turn.specs.Kinds.{kind_cells, kind_reducer};
ghost use Rattle.tilt_window.specs.Taken.{IsFirstTaken};

use std::alloc::{AllocError as OutOfMemory, Global};
use tilt_base::{Cell, Reducer};
use tilt_window::{
    AllR, AnyR, AvgR, CountR, FirstR, LastR, MaxR, MinR, SumR, TwoStack, Undoing, Window,
};

// A window, by its reducer.
#[derive(Drop)]
pub(crate) enum Kind {
    Sum(Undoing<SumR>),
    Avg(Undoing<AvgR>),
    Min(TwoStack<MinR>),
    Max(TwoStack<MaxR>),
    Count(Undoing<CountR>),
    First(TwoStack<FirstR>),
    Last(TwoStack<LastR>),
    Any(Undoing<AnyR>),
    All(Undoing<AllR>),
}

impl Kind {
    // A window without cells.
    pub(crate) fn new(alloc: Global, reducer: Reducer) -> Kind
        ensures reducer { kind_reducer result ≡ reducer }
        ensures cells { kind_cells result ≡ [] }
    {
        match reducer {
            Reducer::Sum => Kind::Sum(Undoing::new(alloc)),
            Reducer::Avg => Kind::Avg(Undoing::new(alloc)),
            Reducer::Min => Kind::Min(TwoStack::new(alloc)),
            Reducer::Max => Kind::Max(TwoStack::new(alloc)),
            Reducer::Count => Kind::Count(Undoing::new(alloc)),
            Reducer::First => Kind::First(TwoStack::new(alloc)),
            Reducer::Last => Kind::Last(TwoStack::new(alloc)),
            Reducer::Any => Kind::Any(Undoing::new(alloc)),
            Reducer::All => Kind::All(Undoing::new(alloc)),
        }
    }

    // Adds a cell after the others, of which there are fewer than 2^62.
    #[inline(always)]
    pub(crate) fn push_back(&mut self, cell: Cell) -> Result<(), OutOfMemory>
        requires few { length (kind_cells self.old) < 4611686018427387904 }
        ensures cells { OnOk result (kind_cells self.new ≡ kind_cells self.old ++ cell ∷ []) }
        ensures reducer { kind_reducer self.new ≡ kind_reducer self.old }
    {
        match self {
            Kind::Sum(window) => window.push_back(cell),
            Kind::Avg(window) => window.push_back(cell),
            Kind::Min(window) => window.push_back(cell),
            Kind::Max(window) => window.push_back(cell),
            Kind::Count(window) => window.push_back(cell),
            Kind::First(window) => window.push_back(cell),
            Kind::Last(window) => window.push_back(cell),
            Kind::Any(window) => window.push_back(cell),
            Kind::All(window) => window.push_back(cell),
        }
    }

    // Takes the first cell out: none exactly where there is none.
    pub(crate) fn pop_front(&mut self) -> Result<Option<Cell>, OutOfMemory>
        ensures taken { IfOk result (λ taken. IsFirstTaken (kind_cells self.old) taken (kind_cells self.new)) }
        ensures reducer { kind_reducer self.new ≡ kind_reducer self.old }
    {
        match self {
            Kind::Sum(window) => window.pop_front(),
            Kind::Avg(window) => window.pop_front(),
            Kind::Min(window) => window.pop_front(),
            Kind::Max(window) => window.pop_front(),
            Kind::Count(window) => window.pop_front(),
            Kind::First(window) => window.pop_front(),
            Kind::Last(window) => window.pop_front(),
            Kind::Any(window) => window.pop_front(),
            Kind::All(window) => window.pop_front(),
        }
    }

    // Takes all cells out.
    pub(crate) fn clear(&mut self)
        ensures cells { kind_cells self.new ≡ [] }
        ensures reducer { kind_reducer self.new ≡ kind_reducer self.old }
    {
        match self {
            Kind::Sum(window) => window.clear(),
            Kind::Avg(window) => window.clear(),
            Kind::Min(window) => window.clear(),
            Kind::Max(window) => window.clear(),
            Kind::Count(window) => window.clear(),
            Kind::First(window) => window.clear(),
            Kind::Last(window) => window.clear(),
            Kind::Any(window) => window.clear(),
            Kind::All(window) => window.clear(),
        }
    }

    // What the reducer gives on the cells that aren't null.
    pub(crate) fn result(&self) -> Cell
        ensures { result ≡ reduce (kind_reducer self.now) (numbers (kind_cells self.now)) }
    {
        match self {
            Kind::Sum(window) => window.result(),
            Kind::Avg(window) => window.result(),
            Kind::Min(window) => window.result(),
            Kind::Max(window) => window.result(),
            Kind::Count(window) => window.result(),
            Kind::First(window) => window.result(),
            Kind::Last(window) => window.result(),
            Kind::Any(window) => window.result(),
            Kind::All(window) => window.result(),
        }
    }
}
