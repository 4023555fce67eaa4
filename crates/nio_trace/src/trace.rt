//! The list, and how items get into it. `new` and `extend_from` are proved by hand, from what a trace
//! owns, which is nothing; every other call is made of them.
ghost use Rattle.std.specs.Prelude.{◌≡◌, List, [], ◌∷◌, ◌++◌};

use std::alloc::AllocError;
use std::marker::{Model, PhantomData};

/// A list that contracts see and no program holds: it has no bytes, and its calls do nothing.
#[derive(Drop)]
pub struct Trace<T> {
    of: PhantomData<T>,
    ghost items: { List T },
}

impl<T> Model for Trace<T> {
    ghost use Rattle.std.specs.Prelude.{List};
    ghost use Rattle.std.specs.Borrow.{ftrue};

    ghost Value = { List T };

    ghost view = { λ t. t.items };

    ghost also_owns = { λ _. ftrue };
}

// It owns nothing, whatever its items are.
unsafe impl<T> Send for Trace<T> {}

unsafe impl<T> Sync for Trace<T> {}

/// Which items a trace takes from a value, in proofs alone.
pub trait Reading<X, T> {
    ghost items: { X → List T };
}

impl<T> Trace<T> {
    /// The empty list.
    pub fn new() -> Trace<T>
        ensures { result ≡ [] }
    {
        Trace { of: PhantomData }
    }

    /// Adds the items that `M` reads off a value. No program has to make them.
    pub fn extend_from<X, M: Reading<X, T>>(&mut self, _from: &X)
        ensures { self.new ≡ self.old ++ M.items _from.now }
    {}

    /// Puts an item at the end.
    pub fn push(&mut self, item: &T)
        ensures { self.new ≡ self.old ++ item.now ∷ [] }
    {
        self.extend_from::<T, One>(item);
    }

    /// Puts items at the end.
    pub fn extend(&mut self, items: &[T])
        ensures { self.new ≡ self.old ++ items.now }
    {
        self.extend_from::<&[T], All>(&items);
    }

    /// A second trace with the same list.
    pub fn again(&self) -> Trace<T>
        ensures { result ≡ self.now }
    {
        let mut trace = Trace::new();
        trace.extend_from::<Trace<T>, Whole>(self);
        trace
    }
}

impl<T> Clone for Trace<T> {
    ghost use Rattle.std.specs.Prelude.{⊤};

    ghost is_clone = { λ s r. r ≡ s };

    ghost is_infallible = { λ _. ⊤ };

    fn clone(&self) -> Result<Trace<T>, AllocError> {
        Ok(self.again())
    }
}

/// Reads the value itself.
struct One;

impl<T> Reading<T, T> for One {
    ghost items = { λ item. item ∷ [] };
}

/// Reads each element of a slice.
struct All;

impl<'a, T> Reading<&'a [T], T> for All {
    ghost items = { λ slice. slice.now };
}

/// Reads a trace's items.
struct Whole;

impl<T> Reading<Trace<T>, T> for Whole {
    ghost items = { λ trace. trace };
}
