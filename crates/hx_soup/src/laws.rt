//! What holds of all streams, and what the letters of rejections are.
ghost use Rattle.std.specs.Prelude.{◌≡◌, List, ℕ, [], Option, Some};
ghost use Rattle.std.specs.List.{concat};
ghost use Rattle.hx_soup.specs.declared.packet.SoupPacket.{SoupPacket};
ghost use Rattle.hx_soup.specs.Packets.{Cuts, HasFault};
ghost use Rattle.hx_soup.specs.Framers.{GivesAll};
ghost use Rattle.hx_soup.specs.Kinds.{not_authorized, session_not_available};
ghost use Rattle.hx_soup.specs.declared.answer.TheConstants.{NOT_AUTHORIZED, SESSION_NOT_AVAILABLE};

/// A stream without a fault has one list of packets, and one rest.
pub fn one_cut()
    ensures { (stream : List ℕ) (packets others : List SoupPacket) (rest more : List ℕ) →
        Cuts stream packets rest → Cuts stream others more → (packets ≡ others) × (rest ≡ more) }
{}

/// A stream with a fault has one list of packets before it, and one length that is no packet's.
pub fn one_fault()
    ensures { (stream : List ℕ) (packets others : List SoupPacket) (length other : ℕ) →
        HasFault stream packets length → HasFault stream others other → (packets ≡ others)
        × (length ≡ other) }
{}

/// No stream is both.
pub fn cut_or_fault()
    ensures { (stream : List ℕ) (packets before : List SoupPacket) (rest : List ℕ) (length : ℕ) →
        Cuts stream packets rest → HasFault stream before length → ⊥ }
{}

/// It does not matter how a stream was cut into pieces: a new framer gives the same packets in all, and retains the
/// same bytes or has failed, if memory is ample.
pub fn any_pieces()
    ensures { (pieces others : List (List ℕ)) (packets more : List SoupPacket)
        (new other : Option (List ℕ)) → concat pieces ≡ concat others
        → GivesAll (Some []) new pieces packets → GivesAll (Some []) other others more →
        (packets ≡ more) × (new ≡ other) }
{}

/// The constants for a rejected login are the standard's letters.
pub fn reasons()
    ensures not_authorized { NOT_AUTHORIZED ≡ not_authorized }
    ensures session_not_available { SESSION_NOT_AVAILABLE ≡ session_not_available }
{}
