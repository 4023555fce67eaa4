//! What the plan of a net in memory says of reads and writes.
ghost use Rattle.std.specs.Prelude.{ℕ, List, ◌≡◌, ◌≤◌, Some, IsErr, length, take};
ghost use Rattle.nio_link.specs.MemoryLinks.{put_of, written};
ghost use Rattle.nio_link.specs.NetPlans.{target_end};
ghost use Rattle.nio_link.specs.Pieces.{first_piece, given};
ghost use Rattle.nio_link.specs.declared.memory.plan.PeerPlan.{PeerPlan};

/// A read gives at most one piece: the front of the first of those that are left.
pub fn pieces_law()
    ensures { (pieces : List (List ℕ)) (buffer : List ℕ)
        → given pieces buffer ≡ take (length (given pieces buffer)) (first_piece pieces) }
{}

/// Whatever is written on the link to a target, no byte is taken past `fail_write_after`; once so many were taken, the
/// next write fails.
pub fn write_limit_law()
    ensures most { (place n : ℕ) (peer : PeerPlan) (writes : List (List ℕ)) → peer.fail_write_after ≡ Some n
        → length (written (target_end place peer) writes).put ≤ n }
    ensures fails { (place n : ℕ) (peer : PeerPlan) (writes : List (List ℕ)) (bytes : List ℕ)
        → peer.fail_write_after ≡ Some n → n ≤ length (written (target_end place peer) writes).put
        → IsErr (put_of (written (target_end place peer) writes) (length bytes)) }
{}
