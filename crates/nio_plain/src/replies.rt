//! Replies that calls of several kinds have.
ghost use Rattle.std.specs.Prelude.{◌≡◌};
ghost use Rattle.nio_plain.specs.Seq.Listing.{names_or_none};
ghost use Rattle.nio_plain.specs.Seq.Piping.{not_now};
ghost use Rattle.nio_plain.specs.Seq.Replies.{yes_or_no};

use nio_base::KeyId;
use nio_language::{Names, Reply};

/// The reply to a question.
pub fn yes_or_no(answer: bool) -> Reply
    ensures { result ≡ yes_or_no answer }
{
    if answer { Reply::Yes } else { Reply::No }
}

/// The reply where nothing can be read or written now, of a channel that is in blocking mode or not.
pub fn not_now(blocking: bool) -> Reply
    ensures { result ≡ not_now blocking }
{
    if blocking {
        Reply::Again
    } else {
        Reply::Number(0)
    }
}

/// The reply that lists these keys.
pub fn names_or_none(names: Vec<KeyId>) -> Reply
    ensures { result ≡ names_or_none names.items }
{
    if names.is_empty() {
        Reply::None
    } else {
        Reply::Names(Names::from_vec(names))
    }
}
