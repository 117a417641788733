ghost use Rattle.std.specs.Prelude.{⊤, false, IsSome, OnSome, IfNone, ◌↔◌, ◌≡◌, ◌+◌, ◌^◌, ◌<◌, ◌≤◌, [], ◌∷◌, ◌++◌, length, ◌==◌, take, slice_set};
ghost use Rattle.std.specs.Iterator.Runs.{EveryRun, ItemsMapTo};
ghost use Rattle.std.specs.Slice.Iter.{iter_rest, iter_steps};
ghost use Rattle.std.specs.Option.{option_to_list};
ghost use Rattle.std.specs.Cmp.{on_equiv, on_per};
ghost use Rattle.std.specs.Cmp.Lexicographic.{lists_equiv, lists_per, pointwise};
ghost use Rattle.layout.specs.Vectors.{padded};

use std::alloc::AllocError;
use std::marker::Model;
use std::ops::DerefSlice;
use std::{fmt, slice};

// What stands in a place that holds nothing.
pub trait Blank: Copy {
    ghost blank: { Self };

    fn blank() -> Self
        ensures { result ≡ blank };
}

impl Blank for u8 {
    ghost blank = { 0 };

    fn blank() -> u8 {
        u8::default()
    }
}

impl Blank for bool {
    ghost blank = { false };

    fn blank() -> bool {
        bool::default()
    }
}

// A vector of at most `N` elements, which lie in the value: it allocates nothing. Unlike the library's it can be copied, and
// its places past the elements are blank, so that nothing of an earlier block stays in them.
#[derive(Copy)]
pub struct UpTo<T: Blank, const N: usize> {
    pub(crate) places: [T; N],
    pub(crate) count: u8,
}

impl<T: Blank, const N: usize> Model for UpTo<T, N> {
    ghost use Rattle.std.specs.Prelude.{◌≡◌, ◌≤◌, length, take};
    ghost use Rattle.std.proofs.Common.{sym};
    ghost use Rattle.layout.specs.Vectors.{Items, padded};
    ghost use Rattle.layout.specs.VectorLaws.{counted};

    ghost Value = { Items T };

    ghost view = { λ v. record { items = take v.count v.places } };

    ghost invariant = { λ v. (v.count ≤ N) × (v.places ≡ padded N T.blank (take v.count v.places)) };

    ghost inverse = { λ v. record { places = padded N T.blank v.items; count = length v.items } };

    ghost inverse_ok = { λ v h i. record { places = sym h.1 i; count = counted N T.blank v.places v.count h.0 h.1 i } };
}

impl<T: Blank, const N: usize> UpTo<T, N> {
    pub fn new() -> Self
        ensures { result.items ≡ [] }
    {
        UpTo {
            places: [T::blank(); N],
            count: 0,
        }
    }

    // One element more.
    pub fn push(&mut self, element: T)
        requires room { length self.old.items < N }
        requires few { length self.old.items < 255 }
        ensures { self.new.items ≡ self.old.items ++ element ∷ [] }
    {
        self.places[usize::from(self.count)] = element;
        self.count += 1;
    }

    // The last element, which is taken off.
    pub fn pop(&mut self) -> Option<T>
        ensures items { self.old.items ≡ self.new.items ++ option_to_list result }
        ensures variant { IsSome result ↔ (0 < length self.old.items) }
    {
        let last = usize::from(self.count).checked_sub(1)?;
        let element = self.places[last];
        self.truncate(last);
        Some(element)
    }

    // Another element in the place of one; nothing where there is none.
    pub fn set(&mut self, number: usize, element: T) -> Option<()>
        ensures variant { IsSome result ↔ (number < length self.old.items) }
        ensures some { OnSome result (self.new.items ≡ slice_set self.old.items number element) }
        ensures none { IfNone result (self.new ≡ self.old) }
    {
        if number >= usize::from(self.count) {
            return None;
        }
        self.places[number] = element;
        Some(())
    }

    pub fn len(&self) -> usize
        ensures value { result ≡ length self.now.items }
        ensures few { result ≤ N }
    {
        self.as_slice().len()
    }

    pub fn is_empty(&self) -> bool
        ensures { result ≡ (length self.now.items == 0) }
    {
        self.count == 0
    }

    // Keeps the first `count` elements, and blanks the places of the others. A loop and no `fill`, which asks that a clone
    // cannot fail.
    pub fn truncate(&mut self, count: usize)
        ensures { self.new.items ≡ take count self.old.items }
    {
        while count < usize::from(self.count) {
            self.count -= 1;
            self.places[usize::from(self.count)] = T::blank();
        }
    }

    pub fn clear(&mut self)
        ensures { self.new.items ≡ [] }
    {
        self.truncate(0);
    }

    pub fn as_slice(&self) -> &[T]
        ensures value { result.now ≡ self.now.items }
        ensures few { length result.now ≤ N }
    {
        &self.places[..usize::from(self.count)]
    }

    // All places: the elements, and blanks past them.
    pub fn places(&self) -> &[T]
        ensures { result.now ≡ padded N T.blank self.now.items }
    {
        self.places.as_slice()
    }
}

impl<T: Blank, const N: usize> Blank for UpTo<T, N> {
    ghost blank = { record { items = [] } };

    fn blank() -> Self {
        UpTo::default()
    }
}

impl<T: Blank, const N: usize> Default for UpTo<T, N> {
    ghost is_default = { λ v. v.items ≡ [] };

    fn default() -> Self {
        UpTo::new()
    }
}

impl<T: Blank, const N: usize> Clone for UpTo<T, N> {
    ghost is_clone = { λ v w. v ≡ w };

    ghost is_infallible = { λ _. ⊤ };

    fn clone(&self) -> Result<Self, AllocError> {
        Ok(*self)
    }
}

impl<T: Blank, const N: usize> DerefSlice for UpTo<T, N> {
    type Elem = T;

    ghost deref_gives = { λ v xs. (xs ≡ v.items) × (length xs ≤ N) };

    fn deref(&self) -> &[T] {
        self.as_slice()
    }
}

impl<'a, T: Blank, const N: usize> IntoIterator for &'a UpTo<T, N> {
    type Item = &'a T;

    type IntoIter = slice::Iter<'a, T>;

    ghost into_iter_gives = { λ v rest. (iter_rest rest ≡ v.now.items) × (length (iter_rest rest) < 2 ^ 64)
        × EveryRun (iter_steps {A = T}) (λ run. ItemsMapTo run (λ x. x.now) (iter_rest run.from)) };

    fn into_iter(self) -> slice::Iter<'a, T> {
        self.as_slice().iter()
    }
}

impl<T: Blank + PartialEq, const N: usize> PartialEq for UpTo<T, N> {
    ghost eq = { λ v w. pointwise T.eq v.items w.items };

    ghost laws = { on_per (λ v. v.items) (lists_per T.laws) };

    fn eq(&self, other: &Self) -> bool {
        self.as_slice() == other.as_slice()
    }
}

impl<T: Blank + Eq, const N: usize> Eq for UpTo<T, N> {
    ghost laws = { on_equiv (λ v. v.items) (lists_equiv T.Eq.laws) };
}

impl<T: Blank + fmt::Debug, const N: usize> fmt::Debug for UpTo<T, N> {
    fn fmt<W: fmt::Write>(&self, f: &mut fmt::Formatter<W>) -> fmt::Result {
        f.debug_list().entries(self.as_slice()).finish()
    }
}
