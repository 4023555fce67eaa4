//! The keys that a selection looks at, as a line's reply lists them and as its arguments tell of them.
ghost use Rattle.std.specs.Prelude.{◌≡◌, ◌<◌, ◌≤◌, ◌++◌, [], ◌∷◌, length, map, vec_len, IfOk};
ghost use Rattle.std.specs.List.{AllPairs};
ghost use Rattle.std.specs.Vec.{vec_capacity};
ghost use Rattle.nio_plain.specs.Seq.Selections.{is_looked};
ghost use Rattle.nio_serial.specs.Documented.{looked_pair};
ghost use Rattle.nio_sole.specs.Told.{told_pairs};

use nio_base::{KeyId, Ops};
use nio_select::{Asked, LookedKey};
use std::alloc::{AllocError, Global};

// Lists the keys with their interest sets.
pub(crate) fn list_pairs(asked: &Asked, pairs: &mut Vec<(KeyId, Ops)>)
    requires empty { pairs.old.items ≡ [] }
    requires room { length asked.now.keys ≤ vec_capacity pairs.old }
    ensures { pairs.new.items ≡ map looked_pair asked.now.keys }
{
    for index in 0..asked.bound() {
        if let Some(key) = asked.key(index) {
            add(pairs, pair_of(key));
        }
    }
}

// The key and its interest set.
fn pair_of(key: LookedKey) -> (KeyId, Ops)
    ensures { result ≡ looked_pair key }
{
    let id = KeyId {
        index: key.index,
        serial: key.serial,
    };
    (id, key.interest)
}

// Adds to a list that has room.
fn add(list: &mut Vec<(KeyId, Ops)>, item: (KeyId, Ops))
    requires { vec_len list.old < vec_capacity list.old }
    ensures items { list.new.items ≡ list.old.items ++ item ∷ [] }
    ensures capacity { vec_capacity list.old ≤ vec_capacity list.new }
{
    let _added = list.push(item);
}

// The pairs of keys that the selection looks at, by their indexes.
pub(crate) fn pairs_by_index(
    alloc: Global,
    asked: &Asked,
    pairs: &[(KeyId, Ops)],
) -> Result<Vec<(u32, Ops)>, AllocError>
    requires { AllPairs (λ x y. x.index < y.index) asked.now.keys }
    ensures { IfOk result (λ v. v.items ≡ told_pairs asked.now.keys pairs.now) }
{
    let mut told = Vec::new(alloc);
    for (id, ops) in pairs {
        if is_asked(asked, *id) {
            told.push((id.index, *ops))?;
        }
    }
    Ok(told)
}

// Whether the selection looks at the key.
fn is_asked(asked: &Asked, id: KeyId) -> bool
    requires { AllPairs (λ x y. x.index < y.index) asked.now.keys }
    ensures { result ≡ is_looked (map looked_pair asked.now.keys) id }
{
    match asked.key(id.index) {
        Some(key) => key.serial == id.serial,
        None => false,
    }
}
