//! In which sets the key is that an index has.
ghost use Rattle.std.specs.Prelude.{◌≡◌};
ghost use Rattle.nio_history.specs.Sets.{in_key_set, in_cancelled_set, is_valid as is_valid_stage};

use nio_history::Stage;

// Whether it is in the key set: published and not removed.
pub(crate) fn is_in_key_set(stage: Stage) -> bool
    ensures { result ≡ in_key_set stage }
{
    stage.published && !stage.removed
}

// Whether it is in the cancelled set: in the key set, and cancelled.
pub(crate) fn is_in_cancelled_set(stage: Stage) -> bool
    ensures { result ≡ in_cancelled_set stage }
{
    is_in_key_set(stage) && stage.cancelled
}

pub(crate) fn is_valid(stage: Stage) -> bool
    ensures { result ≡ is_valid_stage stage }
{
    is_in_key_set(stage) && !stage.cancelled
}
