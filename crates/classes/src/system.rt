ghost use Rattle.std.specs.Prelude.{◌≡◌};
ghost use Rattle.classes.specs.Classes.{Classes, ClassLaws};

// A system of classes: an order with a least class, and for any two classes the least one above both. Each
// answer depends on the system and the arguments alone, asking changes nothing, and every question has an
// answer: only a code may be left without a class.
pub trait ClassSystem {
    type Class: Copy;

    ghost meaning: { Self → Classes (Self.Class) };

    // The class at or below every class.
    fn bottom(&self) -> Self::Class
        ensures { result ≡ (meaning self.now).bottom };

    // The least class at or above both.
    fn join(&self, a: Self::Class, b: Self::Class) -> Self::Class
        ensures { result ≡ (meaning self.now).join a b };

    // Whether `a` is at or below `b`: who may know `b` may know `a`.
    fn at_or_below(&self, a: Self::Class, b: Self::Class) -> bool
        ensures { result ≡ (meaning self.now).below a b };

    // The class that a code names, if it names one.
    fn named(&self, code: u16) -> Option<Self::Class>
        ensures { result ≡ (meaning self.now).named code };

    ghost lawful: { (s : Self) → ClassLaws (meaning s) };
}
