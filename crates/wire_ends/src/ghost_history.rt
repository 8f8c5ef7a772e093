//! A history that only proofs read.
ghost use Rattle.std.specs.Prelude.{◌≡◌, List, [], ◌∷◌, ◌++◌};
ghost use Rattle.std.specs.Borrow.{ftrue};

use std::fmt;
use std::marker::{Model, PhantomData};

/// What has passed an end, from the first on. It takes no memory, and its methods do nothing at run time: the values themselves
/// have gone on. A clause reads them as `items`.
#[derive(Drop)]
pub struct GhostHistory<T> {
    of: PhantomData<T>,
    pub ghost items: { List T },
}

impl<T> Model for GhostHistory<T> {
    ghost also_owns = { λ _. ftrue };
}

// It owns nothing.
unsafe impl<T: Send> Send for GhostHistory<T> {}

impl<T> GhostHistory<T> {
    /// Nothing yet.
    pub fn new() -> GhostHistory<T>
        ensures { result.items ≡ [] }
    {
        GhostHistory { of: PhantomData }
    }

    /// One more.
    pub fn and(&self, next: &T) -> GhostHistory<T>
        ensures { result.items ≡ self.now.items ++ next.now ∷ [] }
    {
        GhostHistory { of: PhantomData }
    }
}

impl<T> fmt::Debug for GhostHistory<T> {
    fn fmt<W: fmt::Write>(&self, f: &mut fmt::Formatter<W>) -> fmt::Result {
        f.write_str("Passed")
    }
}
