//! A desk: the pass with which callers make lines, and what they have in progress.
ghost use Rattle.std.specs.Prelude.{◌≡◌, ◌<◌, Some, None, is_some, option_map, slice_set, vec_len};
ghost use Rattle.nio_plain.specs.Seq.Selections.{is_caller};
ghost use Rattle.nio_serial.specs.Lines.{if_own};
ghost use Rattle.nio_sole.specs.Stands.{selecting_of};
ghost use Rattle.nio_sole.specs.Taking.{TakesClosing, TakesSelection};

use nio_base::{CallerNo, SelNo};
use nio_group::GroupCore;
use nio_pipe::HeldPipe;
use nio_select::{Closing, Selecting};
use nio_words::Pass;

/// A selection in progress, and its caller. It goes without the selector's list.
pub struct Begun {
    /// Who began it.
    pub caller: CallerNo,
    /// How far it has come.
    pub selection: Selecting,
}

/// A closing in progress, and its caller.
pub struct Shut {
    /// Who closes the selector.
    pub caller: CallerNo,
    /// How far that has come.
    pub closing: Closing,
}

/// A pipe, and the callers that own its source and its sink.
#[derive(Drop)]
pub struct OwnedPipe {
    /// Who may read.
    pub reader: CallerNo,
    /// Who may write.
    pub writer: CallerNo,
    /// Its two ends.
    pub pipe: HeldPipe,
}

/// A pass, which acts for one or more callers; what they have in progress, by the selector's number: there is a
/// place for each selector; their group, once a call was made on it; and their pipes, in the order in which they were
/// made.
pub struct Desk {
    /// What the callers make their steps with.
    pub pass: Pass,
    /// Those in progress, by the number of the selector.
    pub selections: Vec<Option<Begun>>,
    /// Those in progress, by the number of the selector.
    pub closings: Vec<Option<Shut>>,
    /// The script's group, once a call needed it.
    pub group: Option<GroupCore>,
    /// The pipes that were made, in their order.
    pub pipes: Vec<OwnedPipe>,
}

impl Desk {
    /// Lets all that is in progress, the group and the pipes go without a step.
    pub fn into_pass(self) -> Pass
        ensures { result ≡ self.pass }
    {
        let Desk {
            pass,
            selections,
            closings,
            group: _group,
            pipes: _pipes,
        } = self;
        forget_selections(selections);
        forget_closings(closings);
        pass
    }
}

/// Lets selections go without a step.
pub fn forget_selections(mut selections: Vec<Option<Begun>>) {
    while let Some(place) = selections.pop() {
        forget_selection(place);
    }
    selections.destroy_empty();
}

pub(crate) fn forget_selection(place: Option<Begun>) {
    if let Some(
        Begun {
            caller: _caller,
            selection,
        },
    ) = place
    {
        selection.forget();
    }
}

/// Lets closings go without a step.
pub fn forget_closings(mut closings: Vec<Option<Shut>>) {
    while let Some(place) = closings.pop() {
        forget_closing(place);
    }
    closings.destroy_empty();
}

pub(crate) fn forget_closing(place: Option<Shut>) {
    if let Some(
        Shut {
            caller: _caller,
            closing,
        },
    ) = place
    {
        closing.forget();
    }
}

// Puts a selection into its selector's place.
pub(crate) fn put_selection(selections: &mut Vec<Option<Begun>>, sel: SelNo, begun: Begun)
    requires { sel.0 < vec_len selections.old }
    ensures items { selections.new.items ≡ slice_set selections.old.items sel.0 (Some begun) }
    ensures len { vec_len selections.new ≡ vec_len selections.old }
{
    let before = selections[sel.0 as usize].replace(begun);
    forget_selection(before);
}

// Takes the caller's own selection out of its place.
pub(crate) fn take_selection(
    selections: &mut Vec<Option<Begun>>,
    me: CallerNo,
    sel: SelNo,
) -> Option<Selecting>
    requires { sel.0 < vec_len selections.old }
    ensures taken { TakesSelection selections.old.items selections.new.items me sel result }
    ensures len { vec_len selections.new ≡ vec_len selections.old }
{
    let place = &mut selections[sel.0 as usize];
    if !selects(place, me) {
        return None;
    }
    match place.take() {
        Some(
            Begun {
                caller: _caller,
                selection,
            },
        ) => Some(selection),
        None => None,
    }
}

// Whether the selection is the caller's own.
fn selects(place: &Option<Begun>, me: CallerNo) -> bool
    ensures { result ≡ is_some (if_own me (option_map selecting_of place.now)) }
{
    match place {
        Some(begun) => begun.caller.0 == me.0,
        None => false,
    }
}

/// Takes a selection out of its place, whosever it is, and lets it go without a step.
pub fn drop_selection(selections: &mut Vec<Option<Begun>>, sel: SelNo)
    requires { sel.0 < vec_len selections.old }
    ensures items { selections.new.items ≡ slice_set selections.old.items sel.0 None }
    ensures len { vec_len selections.new ≡ vec_len selections.old }
{
    let before = selections[sel.0 as usize].take();
    forget_selection(before);
}

// Puts a closing into its selector's place.
pub(crate) fn put_closing(closings: &mut Vec<Option<Shut>>, sel: SelNo, shut: Shut)
    requires { sel.0 < vec_len closings.old }
    ensures items { closings.new.items ≡ slice_set closings.old.items sel.0 (Some shut) }
    ensures len { vec_len closings.new ≡ vec_len closings.old }
{
    let before = closings[sel.0 as usize].replace(shut);
    forget_closing(before);
}

// Takes the caller's own closing out of its place.
pub(crate) fn take_closing(
    closings: &mut Vec<Option<Shut>>,
    me: CallerNo,
    sel: SelNo,
) -> Option<Closing>
    requires { sel.0 < vec_len closings.old }
    ensures taken { TakesClosing closings.old.items closings.new.items me sel result }
    ensures len { vec_len closings.new ≡ vec_len closings.old }
{
    let place = &mut closings[sel.0 as usize];
    if !closes(place, me) {
        return None;
    }
    match place.take() {
        Some(
            Shut {
                caller: _caller,
                closing,
            },
        ) => Some(closing),
        None => None,
    }
}

// Whether the closing is the caller's own.
fn closes(place: &Option<Shut>, me: CallerNo) -> bool
    ensures { result ≡ is_caller me (option_map (λ x. x.caller) place.now) }
{
    match place {
        Some(shut) => shut.caller.0 == me.0,
        None => false,
    }
}
