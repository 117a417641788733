ghost use Rattle.std.specs.Prelude.{◌≡◌, T};
ghost use Rattle.classes.specs.Classes.{joined, UpperBound, all_below};

use crate::system::ClassSystem;

// The least class at or above each of these.
pub fn join_all<S: ClassSystem>(system: &S, classes: &[S::Class]) -> S::Class
    ensures joined { result ≡ joined (S.ClassSystem.meaning system.now) classes.now }
    ensures above { UpperBound (S.ClassSystem.meaning system.now) classes.now result }
    ensures least { (z : S.Class) → UpperBound (S.ClassSystem.meaning system.now) classes.now z → T ((S.ClassSystem.meaning system.now).below result z) }
{
    classes
        .iter()
        .fold(system.bottom(), |all, class| system.join(all, *class))
}

// Whether each of these is at or below the bound; that is, whether their join is.
pub fn all_at_or_below<S: ClassSystem>(system: &S, classes: &[S::Class], bound: S::Class) -> bool
    ensures each { result ≡ all_below (S.ClassSystem.meaning system.now) classes.now bound }
    ensures join { result ≡ (S.ClassSystem.meaning system.now).below (joined (S.ClassSystem.meaning system.now) classes.now) bound }
{
    classes
        .iter()
        .all(|class| system.at_or_below(*class, bound))
}
