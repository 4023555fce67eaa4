//! Lists for C.
ghost use Rattle.std.specs.Prelude.{◌≡◌, ◌≤◌, ◌++◌, drop, length, map};
ghost use Rattle.nio_select.specs.Listed.{ok_seen};
ghost use Rattle.nio_c.specs.Lists.{counted, filled, list_status, listed, status_list};
ghost use Rattle.nio_c.specs.Statuses.{call_refusal, list_refusal};
ghost use Rattle.nio_c.specs.Values.{as_looked, key_of};

use crate::status::{Refusal, Status};
use crate::values::{Key, Looked};
use nio_base::KeyNo;
use nio_caller::CallError;
use nio_select::Asked;
use nio_steps::ListError;

// Writes how long the list is, and the list where there is room for it; or answers what was refused.
pub(crate) fn write_listed(
    answer: Result<Vec<KeyNo>, CallError<ListError>>,
    keys: &mut [Key],
    count: &mut usize,
) -> Status
    ensures status { result
        ≡ list_status (length keys.old) (call_refusal list_refusal) (ok_seen (λ v. v.items) answer) }
    ensures keys { keys.new ≡ listed key_of (ok_seen (λ v. v.items) answer) keys.old }
    ensures count { count.new ≡ counted (ok_seen (λ v. v.items) answer) count.old }
{
    match answer {
        Ok(list) => write_keys(list.as_slice(), keys, count),
        Err(error) => error.status(),
    }
}

fn write_keys(list: &[KeyNo], keys: &mut [Key], count: &mut usize) -> Status
    ensures status { result ≡ status_list (length keys.old) list.now }
    ensures keys { keys.new ≡ filled key_of list.now keys.old }
    ensures count { count.new ≡ length list.now }
{
    *count = list.len();
    if keys.len() < list.len() {
        return Status::NoRoom;
    }
    fill_keys(keys, list);
    Status::Done
}

// Writes the keys at the front of the array.
fn fill_keys(into: &mut [Key], keys: &[KeyNo])
    requires { length keys.now ≤ length into.old }
    ensures { into.new ≡ map key_of keys.now ++ drop (length keys.now) into.old }
{
    for (i, key) in keys.iter().enumerate() {
        into[i] = Key::of(*key);
    }
}

// Writes how many keys are asked for, and the keys where there is room for them.
pub(crate) fn write_asked(asked: &Asked, keys: &mut [Looked], count: &mut usize) -> Status
    ensures status { result ≡ status_list (length keys.old) asked.now.keys }
    ensures keys { keys.new ≡ filled as_looked asked.now.keys keys.old }
    ensures count { count.new ≡ length asked.now.keys }
{
    *count = asked.len();
    if keys.len() < asked.len() {
        return Status::NoRoom;
    }
    fill_asked(keys, asked);
    Status::Done
}

// Writes the keys that are asked for at the front of the array.
#[tactic(auto, using(nio_select::proofs::KeysTo::none_below))]
fn fill_asked(into: &mut [Looked], asked: &Asked)
    requires { length asked.now.keys ≤ length into.old }
    ensures { into.new ≡ map as_looked asked.now.keys ++ drop (length asked.now.keys) into.old }
{
    let mut count = 0;
    for index in 0..asked.bound() {
        if let Some(key) = asked.key(index) {
            into[count] = Looked::of(key);
            count += 1;
        }
    }
}
