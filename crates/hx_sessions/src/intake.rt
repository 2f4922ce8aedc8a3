//! Packets that come in.
ghost use Rattle.std.specs.Prelude.{◌≡◌};
ghost use Rattle.hx_sessions.specs.declared.intake.Intake.TheVariants.{Waiting};
ghost use Rattle.hx_sessions.specs.Intakes.{Means, FirstMeans, later_action, after};

use hx_soup::{LoginRequest, SoupPacket, decode_login, kinds};

/// What a packet of the client asks for.
#[derive(Clone, Copy, Debug, PartialEq, Eq)]
pub enum Action {
    /// To log in (SoupBinTCP 3.00, Login Request Packet).
    Login(LoginRequest),
    /// To submit the packet's payload as a message (SoupBinTCP 3.00, Unsequenced Data Packet).
    Submit,
    /// Nothing.
    Ignore,
    /// To end the session (SoupBinTCP 3.00, Logout Request Packet).
    Logout,
    /// Nothing that a session has: the session ends.
    Fault,
}

/// The state of a session, by its client's packets.
#[derive(Clone, Copy, Debug, PartialEq, Eq)]
pub enum Intake {
    /// The login is still to come.
    Waiting,
    /// The login has come.
    Open,
    /// A logout or a fault has come.
    Closed,
}

impl Intake {
    /// The intake of a new session.
    pub fn new() -> Self
        ensures { result ≡ Waiting }
    {
        Intake::Waiting
    }

    /// What the client's next packet asks for (SoupBinTCP 3.00, Logical Packets Sent by a SoupBinTCP Client). The first
    /// must be a login that can be read. After it a message is submitted, if it is not empty; heartbeats and debug
    /// packets are ignored; a logout ends the session, whatever its payload; and any other packet is a fault, another
    /// login too. After a logout or a fault every packet is ignored.
    pub fn packet(&mut self, packet: &SoupPacket) -> Action
        ensures means { Means self.old packet.now result }
        ensures after { self.new ≡ after self.old result }
    {
        let action = match self {
            Intake::Waiting => first_action(packet),
            Intake::Open => later_action(packet),
            Intake::Closed => Action::Ignore,
        };
        match action {
            Action::Login(_) => *self = Intake::Open,
            Action::Logout | Action::Fault => *self = Intake::Closed,
            Action::Submit | Action::Ignore => {}
        }
        action
    }
}

// What the first packet asks for.
fn first_action(packet: &SoupPacket) -> Action
    ensures { FirstMeans packet.now result }
{
    if packet.kind != kinds::LOGIN_REQUEST {
        return Action::Fault;
    }
    match decode_login(packet.payload.as_slice()) {
        Some(login) => Action::Login(login),
        None => Action::Fault,
    }
}

// What a packet after the login asks for.
fn later_action(packet: &SoupPacket) -> Action
    ensures { result ≡ later_action packet.now }
{
    match packet.kind {
        kinds::UNSEQUENCED_DATA if packet.payload.as_slice().is_empty() => Action::Ignore,
        kinds::UNSEQUENCED_DATA => Action::Submit,
        kinds::CLIENT_HEARTBEAT | kinds::DEBUG => Action::Ignore,
        kinds::LOGOUT_REQUEST => Action::Logout,
        _ => Action::Fault,
    }
}
