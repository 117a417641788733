ghost use Rattle.std.specs.Prelude.{◌≡◌};
ghost use Rattle.rules.specs.Faults.{equation_number, fault_at, fault_of_examine};

use syntax::fault::{Fault, Stage};

// A place in a block: an equation of a node, or the node as a whole.
#[derive(Clone, Copy, Debug, PartialEq, Eq)]
pub struct Place {
    pub node: usize,
    pub equation: Option<usize>,
}

// What is examined, in this order.
#[derive(Clone, Copy, Debug, PartialEq, Eq)]
pub enum Check {
    // numbers and counts fit the block
    Fit,
    // cells list expressions
    Shape,
    Kinds,
    Clocks,
    // every output and local is defined once, no input ever
    Definitions,
    // no flow rests on itself
    Cycles,
    // the expansion is not too large
    Size,
}

// Why a block may not run, and where. What fails for a node as a whole has its number and no `Place`, which could
// name an equation.
#[derive(Clone, Copy, Debug, PartialEq, Eq)]
pub enum ExamineFault {
    Misfit(Place),
    OutOfShape(Place),
    WrongKind(Place),
    WrongClock(Place),
    NotDefinedOnce { node: usize },
    RestsOnItself { node: usize },
    TooLarge { node: usize },
}

impl Check {
    // The fault where this check fails.
    pub fn fault_at(self, place: Place) -> ExamineFault
        ensures { result ≡ fault_at self place }
    {
        match self {
            Check::Fit => ExamineFault::Misfit(place),
            Check::Shape => ExamineFault::OutOfShape(place),
            Check::Kinds => ExamineFault::WrongKind(place),
            Check::Clocks => ExamineFault::WrongClock(place),
            Check::Definitions => ExamineFault::NotDefinedOnce { node: place.node },
            Check::Cycles => ExamineFault::RestsOnItself { node: place.node },
            Check::Size => ExamineFault::TooLarge { node: place.node },
        }
    }
}

// The second place of a fault where no equation is named. A number and no `Option`: a host and a script are told so
// (docs/REFUSALS.md).
const NO_EQUATION: usize = 31;

impl Place {
    fn equation_number(self) -> usize
        ensures { result ≡ equation_number self.equation }
    {
        self.equation.unwrap_or(NO_EQUATION)
    }
}

impl From<ExamineFault> for Fault {
    ghost from_gives = { λ e r. r ≡ fault_of_examine e };

    fn from(e: ExamineFault) -> Fault {
        let (number, first, second) = match e {
            ExamineFault::Misfit(p) => (6, p.node, p.equation_number()),
            ExamineFault::OutOfShape(p) => (7, p.node, p.equation_number()),
            ExamineFault::WrongKind(p) => (8, p.node, p.equation_number()),
            ExamineFault::WrongClock(p) => (9, p.node, p.equation_number()),
            ExamineFault::NotDefinedOnce { node } => (10, node, NO_EQUATION),
            ExamineFault::RestsOnItself { node } => (11, node, NO_EQUATION),
            ExamineFault::TooLarge { node } => (12, node, NO_EQUATION),
        };
        Fault {
            number,
            stage: Stage::Examining,
            first,
            second,
        }
    }
}
