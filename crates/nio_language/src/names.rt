//! The names of keys, as a reply lists them.
ghost use Rattle.std.specs.Prelude.{◌≡◌, List};
ghost use Rattle.nio_base.specs.declared.numbers.KeyId.{KeyId as Key};

use nio_base::KeyId;
use std::marker::Model;

/// Keys of one selector, in the order in which they are printed. Contracts see the list.
#[derive(Debug, Drop)]
pub struct Names {
    keys: Vec<KeyId>,
}

impl Model for Names {
    ghost Value = { List Key };

    ghost view = { λ n. n.keys.items };
}

impl Names {
    /// The names of the vector's keys. Takes no memory.
    pub fn from_vec(keys: Vec<KeyId>) -> Names
        ensures { result ≡ keys.items }
    {
        Names { keys }
    }

    /// The vector of the keys. Takes no memory.
    pub fn into_vec(self) -> Vec<KeyId>
        ensures { result.items ≡ self }
    {
        self.keys
    }

    /// The keys, in their order.
    pub fn as_slice(&self) -> &[KeyId]
        ensures { result.now ≡ self.now }
    {
        self.keys.as_slice()
    }
}
