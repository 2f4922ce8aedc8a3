//! What holds of all turns of a delivery, and of sessions one after the other. A function here is a proved statement, and
//! does nothing.
ghost use Rattle.std.specs.Prelude.{◌≡◌, ◌-◌, ◌<◌, ◌≤◌, List, ℕ, take, drop, false};
ghost use Rattle.hx_sessions.specs.declared.delivery.Turn.{Turn};
ghost use Rattle.hx_sessions.specs.Deliveries.{Delivery};
ghost use Rattle.hx_sessions.specs.Runs.{Asked, Runs, BringsAll};
ghost use Rattle.hx_sessions.specs.Served.{SessionsGoOn};

/// The packets of a delivery are the replies from its first one on, each once and in order, as sequenced data, with
/// heartbeats between them and at most one end of the session, which goes out only when the day has ended and no reply
/// is left, and after which nothing goes out. Its next number shows how many replies have gone out.
pub fn frames_in_order()
    ensures { (replies : List (List ℕ)) (old new : Delivery) (asked : List Asked)
        (turns : List Turn) → 0 < old.next → old.over ≡ false → Runs replies old new asked turns →
        (old.next ≤ new.next)
        × BringsAll false (take (new.next - old.next) (drop (old.next - 1) replies)) asked turns }
{}

/// Of two sessions of one part the second goes on from the first: after both, the reader and the pass know all that
/// they knew before and between them, and the replies to a member are those up to the first one's end, and others after
/// them.
pub fn sessions_go_on()
    ensures { SessionsGoOn }
{}
