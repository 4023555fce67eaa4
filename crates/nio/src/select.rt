//! Selectors, selections, pollers and bells.
pub use nio_history::{Milliseconds, Why};
pub use nio_poller::{
    Bell, NoBell, PollError, Poller, Scripted, SelectError, Sleeper, SleeperBell, close, interrupt,
    interrupted, select, select_for, select_now, select_told, select_told_for, tells_some, wakeup,
};
pub use nio_select::{
    After, Asked, BeginError, ChangeList, Closing, Finish, KeyChange, KeyList, ListError, Lister,
    LookedKey, Mode, Selected, Selecting, Selector, SelectorsSpent, Shutting, Stamp, Told,
    Unlisted, keys, open_selector, selected_keys, shut, try_begin,
};
