// The fault of the transport layer.
ghost use Rattle.std.specs.Prelude.{◌≡◌};
ghost use Rattle.messages.specs.declared.refusals.Layer.{Layer};
ghost use Rattle.transport.specs.declared.faults.Subject.TheVariants.{Zone};
ghost use Rattle.transport.specs.Faults.{named_zone, named_place, refused, refusal_of, transport_facts};

use messages::refusals::{Layer, Refusal};

// What a fault names: the call's zone, or without one the key's place.
#[derive(Clone, Copy, PartialEq, Eq, Debug)]
pub enum Subject {
    Zone(u8),
    Place(u8),
}

impl Subject {
    pub fn zone(self) -> Option<u8>
        ensures { result ≡ named_zone self }
    {
        match self {
            Subject::Zone(zone) => Some(zone),
            Subject::Place(_) => None,
        }
    }

    pub fn place(self) -> Option<u8>
        ensures { result ≡ named_place self }
    {
        match self {
            Subject::Zone(_) => None,
            Subject::Place(place) => Some(place),
        }
    }
}

// Why a transport refused. A layer above carries it whole.
#[derive(Clone, Copy, PartialEq, Eq, Debug)]
pub struct TransportFault {
    refusal: Refusal,
    subject: Subject,
}

impl TransportFault {
    pub(crate) fn no_such_zone(zone: u8) -> TransportFault
        ensures { transport_facts result ≡ refused 6 (Zone zone) }
    {
        TransportFault {
            refusal: Refusal::NoSuchZone,
            subject: Subject::Zone(zone),
        }
    }

    pub(crate) fn no_room(subject: Subject) -> TransportFault
        ensures { transport_facts result ≡ refused 11 subject }
    {
        TransportFault {
            refusal: Refusal::NoRoom,
            subject,
        }
    }

    pub fn refusal(self) -> Refusal
        ensures { result ≡ refusal_of self }
    {
        self.refusal
    }

    pub fn number(self) -> u8
        ensures { result ≡ (transport_facts self).number }
    {
        self.refusal.number()
    }

    pub fn layer(self) -> Layer
        ensures { result ≡ (transport_facts self).layer }
    {
        Layer::Transport
    }

    pub fn zone(self) -> Option<u8>
        ensures { result ≡ (transport_facts self).zone }
    {
        self.subject.zone()
    }

    pub fn place(self) -> Option<u8>
        ensures { result ≡ (transport_facts self).place }
    {
        self.subject.place()
    }
}
