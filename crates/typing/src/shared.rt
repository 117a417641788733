ghost use Rattle.std.specs.Prelude.{◌≡◌};
ghost use Rattle.rules.specs.Shared.{shared};

// What both have, where they have one.
pub fn shared<T: PartialEq + Drop>(a: Option<T>, b: Option<T>) -> Option<T>
    ensures { result ≡ shared T.eq a b }
{
    // No `filter`, which would not look at what it is given.
    if a == b { b } else { None }
}
