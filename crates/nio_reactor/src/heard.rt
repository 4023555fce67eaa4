//! What a worker hears on its line.
ghost use Rattle.std.specs.Prelude.{◌≡◌, ℕ, [], ◌∷◌, ◌++◌, false, IsTrue, List, MatchOption, Option, Some, map};
ghost use Rattle.nio_reactor.specs.Dealing.{number_of};
ghost use Rattle.nio_reactor.specs.Receiving.{in_hand, is_early, is_over};
ghost use Rattle.nio_reactor.specs.declared.heard.Heard.TheVariants.{Nothing};

use crate::handed::Handed;
use crate::message::Message;
use nio_base::Gate;
use nio_line::LineOut;
use nio_trace::Trace;
use std::mem;
use std::sync::Wait;

/// What came last on a line, and what became of it.
#[derive(Drop)]
pub(crate) enum Heard<L> {
    /// Nothing came, or it was used.
    Nothing,
    /// A link, which wasn't used yet.
    Link(Handed<L>),
    /// The link of the connection with this number. The net had no memory for it: it was let go, and no more is heard.
    Refused(u32),
    /// The end: no more links come.
    End,
    /// The end, before all links of the worker had come, where no connection was live.
    Early,
    /// All that came once the worker had ended: these links were let go, and last came the end.
    Over(Trace<Option<u32>>),
}

// The next message of a line: waits for it, or takes one that has come.
fn next_message<R: Wait, L: Drop>(
    rt: &R,
    line: &mut LineOut<Message<L>>,
    waits: bool,
) -> Option<Message<L>>
    ensures { MatchOption result (line.new ≡ line.old)
        (λ message. line.new ≡ record line.old { carried = line.old.carried ++ message ∷ [] }) }
{
    if waits {
        Some(line.receive(rt))
    } else {
        line.try_receive(rt)
    }
}

/// Takes the next message of the line, unless one was taken that wasn't used yet. The link of a connection passes the
/// test gate.
pub(crate) fn hear<R: Wait, G: Gate, L: Drop>(
    rt: &R,
    gate: &G,
    worker: u32,
    line: &mut LineOut<Message<L>>,
    heard: &mut Heard<L>,
    waits: bool,
)
    ensures line { line.new.line ≡ line.old.line }
    ensures numbers { (used : List (Option ℕ)) → map number_of line.old.carried ≡ used ++ in_hand heard.old
        → map number_of line.new.carried ≡ used ++ in_hand heard.new }
    ensures early { is_early heard.new ≡ is_early heard.old }
{
    if !matches!(heard, Heard::Nothing) {
        return;
    }
    match next_message(rt, line, waits) {
        Some(Message::Work(handed)) => {
            gate.pass(rt, worker, u64::from(handed.number()));
            *heard = Heard::Link(handed);
        }
        Some(Message::End) => *heard = Heard::End,
        None => {}
    }
}

// The link of this connection, as one that was let go.
fn one(connection: u32) -> Trace<Option<u32>>
    ensures { result ≡ Some connection ∷ [] }
{
    let mut gone = Trace::new();
    gone.push(&Some(connection));
    gone
}

// The links that were heard and not put in. None where the end was heard.
fn unused<L>(heard: &Heard<L>) -> Option<Trace<Option<u32>>>
    ensures { MatchOption result (IsTrue (is_over heard.now))
        (λ gone. (gone ≡ in_hand heard.now) × (is_early heard.now ≡ false)) }
{
    match heard {
        Heard::End | Heard::Early | Heard::Over(_) => None,
        Heard::Nothing => Some(Trace::new()),
        Heard::Link(handed) => Some(one(handed.number())),
        Heard::Refused(connection) => Some(one(*connection)),
    }
}

/// Receives all that still comes on a line, to its end, and lets the links go: so nobody that sends waits for a worker
/// that has ended.
pub(crate) fn hear_out<R: Wait, L: Drop>(
    rt: &R,
    line: &mut LineOut<Message<L>>,
    heard: &mut Heard<L>,
)
    ensures line { line.new.line ≡ line.old.line }
    ensures numbers { (used : List (Option ℕ)) → map number_of line.old.carried ≡ used ++ in_hand heard.old
        → map number_of line.new.carried ≡ used ++ in_hand heard.new }
    ensures early { is_early heard.new ≡ is_early heard.old }
    ensures over { IsTrue (is_over heard.new) }
{
    let Some(mut gone) = unused(heard) else {
        return;
    };
    for _ in rt.forever() {
        match line.receive(rt) {
            Message::Work(handed) => gone.push(&Some(handed.number())),
            Message::End => {
                gone.push(&None);
                *heard = Heard::Over(gone);
                return;
            }
        }
    }
    unreachable!()
}

/// The next link, if it has come.
pub(crate) fn take_link<L: Drop>(heard: &mut Heard<L>) -> Option<Handed<L>>
    ensures taken { MatchOption result (heard.new ≡ heard.old)
        (λ handed. (in_hand heard.old ≡ Some handed.number ∷ []) × (heard.new ≡ Nothing)) }
    ensures early { is_early heard.new ≡ is_early heard.old }
{
    match mem::replace(heard, Heard::Nothing) {
        Heard::Link(handed) => Some(handed),
        other => {
            *heard = other;
            None
        }
    }
}
