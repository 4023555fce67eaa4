//! The calls of lines that close a selector.
ghost use Rattle.nio_sole.specs.Makes.{MayMake, MakesCall};

use crate::desk::{Desk, Shut, put_closing, take_closing};
use nio_base::{CallerNo, SelNo};
use nio_language::{Call, Reply};
use nio_select::{Finish, Shutting, shut};
use nio_words::Words;
use std::alloc::AllocError;

// Begins to close the selector.
pub(crate) fn close(w: &Words, d: &mut Desk, me: CallerNo, sel: SelNo) -> Result<Reply, AllocError>
    requires { MayMake w.now d.old me (Call.Close sel) }
    ensures { MakesCall (λ plan. plan) w.now d.old d.new me (Call.Close sel) result }
{
    match shut(w, &mut d.pass, me, sel) {
        Shutting::Closing(closing) => {
            put_closing(
                &mut d.closings,
                sel,
                Shut {
                    caller: me,
                    closing,
                },
            );
            Ok(Reply::Closing)
        }
        Shutting::AlreadyClosed => Ok(Reply::Already),
    }
}

// Ends the closing that the caller began.
pub(crate) fn close_end(
    w: &Words,
    d: &mut Desk,
    me: CallerNo,
    sel: SelNo,
) -> Result<Reply, AllocError>
    requires { MayMake w.now d.old me (Call.CloseEnd sel) }
    ensures { MakesCall (λ plan. plan) w.now d.old d.new me (Call.CloseEnd sel) result }
{
    match take_closing(&mut d.closings, me, sel) {
        None => Ok(Reply::NotClosing),
        Some(closing) => match closing.try_finish(w, &mut d.pass, me) {
            Finish::Closed => Ok(Reply::Closed),
            Finish::Busy(closing) => {
                put_closing(
                    &mut d.closings,
                    sel,
                    Shut {
                        caller: me,
                        closing,
                    },
                );
                Ok(Reply::Busy)
            }
        },
    }
}
