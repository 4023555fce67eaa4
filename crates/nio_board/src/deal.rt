//! A worker's share of a table's channels.
ghost use Rattle.std.specs.Prelude.{◌≡◌, ◌^◌, ◌≤◌, ◌/◌, max, MatchOption};
ghost use Rattle.nio_board.specs.Called.{dealt_channel};

use nio_base::ChanNo;
use nio_select::Renumber;

/// A worker's share of a table's channels. The channels of connection k have the numbers 2k + 1 and 2k + 2 there. The
/// worker has connection `worker` and each `workers`-th one after that; it numbers those from 0 on, and so their
/// channels too. Its channel 0 is its listener.
#[derive(Clone, Copy, Debug, PartialEq, Eq)]
pub struct Deal {
    /// How many workers there are.
    pub workers: u32,
    /// Which one this is, from 0 on.
    pub worker: u32,
    /// The table's channel that is the worker's listener.
    pub listener: ChanNo,
}

impl Deal {
    /// The table's channel that is the worker's channel `chan`. None where its number is too large.
    pub fn channel(&self, chan: ChanNo) -> Option<ChanNo>
        ensures { MatchOption result (2 ^ 32 ≤ (dealt_channel self.now chan).0)
            (λ c. c ≡ dealt_channel self.now chan) }
    {
        if chan.0 == 0 {
            return Some(self.listener);
        }
        let before = chan.0 - 1;
        let number = u64::from(self.worker) + u64::from(before / 2) * u64::from(self.workers);
        if number >= 1 << 31 {
            return None;
        }
        match u32::try_from(2 * number + 1 + u64::from(before % 2)) {
            Ok(dealt) => Some(ChanNo(dealt)),
            Err(_large) => None,
        }
    }
}

impl Renumber for Deal {
    ghost use Rattle.nio_board.specs.Called.{board_channel};

    ghost renumbered = { board_channel };

    /// The worker's channel that is this channel of the table.
    fn renumber(&self, chan: ChanNo) -> ChanNo {
        if chan.0 == self.listener.0 {
            return ChanNo(0);
        }
        let before = chan.0.saturating_sub(1);
        ChanNo(2 * divided(before / 2, self.workers) + 1 + before % 2)
    }
}

/// The number divided by `by`, by 1 where that is 0. Each poll of a worker renumbers all its keys, and a division by a
/// constant is cheaper: it compiles to a multiplication.
fn divided(number: u32, by: u32) -> u32
    ensures { result ≡ number / max by 1 }
{
    match by {
        1 => number,
        2 => number / 2,
        3 => number / 3,
        4 => number / 4,
        5 => number / 5,
        6 => number / 6,
        7 => number / 7,
        8 => number / 8,
        9 => number / 9,
        10 => number / 10,
        11 => number / 11,
        12 => number / 12,
        13 => number / 13,
        14 => number / 14,
        15 => number / 15,
        more => number / more.max(1),
    }
}
