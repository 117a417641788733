ghost use Rattle.flat.specs.Beats.{HistoriesGrow, OrderedOneAnswer};
ghost use Rattle.flat.specs.Cleared.{ClearedNoninterference};
ghost use Rattle.flat.specs.Clearing.{Marked, ExactClearing, ClearingWithoutJoins};
ghost use Rattle.flat.specs.Constraints.{OrderedClockClasses};
ghost use Rattle.flat.specs.Examples.{WorkedExamples};
ghost use Rattle.flat.specs.Listings.{FlowsAreListed};
ghost use Rattle.flat.specs.Secrecy.{Noninterference};
ghost use Rattle.flat.specs.Typing.{OrderedPresentFlows};

use classes::system::ClassSystem;
use numbers::reckoning::Reckoning;

// A theorem: where the flows of a program can be ordered so that each needs earlier ones alone, every beat has
// one answer, and every list of readings one history.
pub fn one_answer<R: Reckoning>(reckoning: &R)
    ensures { OrderedOneAnswer (R.Reckoning.meaning reckoning.now) }
{}

// A theorem: a history and one more beat are a history.
pub fn histories_grow<R: Reckoning>(reckoning: &R)
    ensures { HistoriesGrow (R.Reckoning.meaning reckoning.now) }
{}

// A theorem: where kinds and clocks of expressions fit, a flow is present just where its clock is, and then has a
// value of its kind.
pub fn present_flows<R: Reckoning>(reckoning: &R)
    ensures { OrderedPresentFlows (R.Reckoning.meaning reckoning.now) }
{}

// A theorem: a tree names just the flows that the cells which list it name.
pub fn flows_are_listed()
    ensures { FlowsAreListed }
{}

// A theorem: the base is bottom, and a derived clock's class is the join of its flow's and its parent's.
pub fn clock_classes<S: ClassSystem>(system: &S)
    ensures { OrderedClockClasses (S.ClassSystem.meaning system.now) }
{}

// A theorem: where classes meet every constraint, flows at or below a class tell nothing of inputs that are not.
pub fn noninterference<S: ClassSystem, R: Reckoning>(system: &S, reckoning: &R)
    ensures { Noninterference (S.ClassSystem.meaning system.now) (R.Reckoning.meaning reckoning.now) }
{}

// A theorem: where some assignment meets every constraint, main flows at or below a class tell nothing of main
// inputs that are not.
pub fn cleared_noninterference<S: ClassSystem, R: Reckoning>(system: &S, reckoning: &R)
    ensures { ClearedNoninterference (S.ClassSystem.meaning system.now) (R.Reckoning.meaning reckoning.now) }
{}

// A theorem: of any program it can be told which main flows reach which flows.
pub fn reaching_is_decided()
    ensures { Marked }
{}

// A theorem: the least classes of inner flows decide whether some assignment meets every constraint.
pub fn exact_clearing<S: ClassSystem>(system: &S)
    ensures { ExactClearing (S.ClassSystem.meaning system.now) }
{}

// A theorem: so do the classes of the main flows and what reaches them.
pub fn clearing_without_joins<S: ClassSystem>(system: &S)
    ensures { ClearingWithoutJoins (S.ClassSystem.meaning system.now) }
{}

// A theorem: what small programs answer, and at which classes they are cleared.
pub fn worked_examples()
    ensures { WorkedExamples }
{}
