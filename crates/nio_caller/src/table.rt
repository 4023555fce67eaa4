//! How a caller holds its table.
ghost use Rattle.std.specs.Prelude.{◌≡◌, IfSome, IsTrue, false, is_some, true};
ghost use Rattle.std.specs.Arc.{arc_value};

use nio_words::Words;
use std::alloc::Global;
use std::sync::Arc;

/// A handle of a table: a borrow of it, or a share in it.
pub trait Table: Drop {
    ghost use Rattle.std.specs.Prelude.{Bool};
    ghost use Rattle.nio_words.specs.declared.words.Words.{Words};

    // The table.
    ghost table: { Self → Words };

    // Whether another handle of it can always be had.
    ghost always: { Bool };

    /// The table.
    fn words(&self) -> &Words
        ensures { result.now ≡ table self.now };

    /// Another handle of the same table. It takes no memory. None where a shared table has as many handles as can be
    /// counted, 2^63 - 1.
    fn share(&self) -> Option<Self>
        ensures same { IfSome result (λ other. table other ≡ table self.now) }
        ensures always { IsTrue always → IsTrue (is_some result) };
}

impl<'a> Table for &'a Words {
    ghost table = { λ words. words.now };

    ghost always = { true };

    fn words(&self) -> &Words {
        *self
    }

    fn share(&self) -> Option<&'a Words> {
        Some(*self)
    }
}

impl Table for Arc<Words, Global> {
    ghost table = { λ shared. arc_value shared };

    ghost always = { false };

    fn words(&self) -> &Words {
        &**self
    }

    fn share(&self) -> Option<Arc<Words, Global>> {
        Arc::try_clone(self).ok()
    }
}
