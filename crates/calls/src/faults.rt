// Why a call on a pool is refused. A transport's fault is carried whole.
ghost use Rattle.std.specs.Prelude.{◌≡◌};
ghost use Rattle.messages.specs.Refusals.{refusal_number};
ghost use Rattle.calls.specs.declared.faults.Fault.TheVariants as fault;
ghost use Rattle.calls.specs.Faults.{refusal_of, facts_of, about_zone, about_place, about_nothing};

use messages::refusals::{Layer, Refusal};
use std::fmt;
use transport::faults::{Subject, TransportFault};

// A refusal of the pool itself, and what it names: a call without a zone whose key has no place names nothing.
#[derive(Clone, Copy, PartialEq, Eq)]
pub struct PoolFault {
    refusal: Refusal,
    subject: Option<Subject>,
}

// Written out: a fault tells its zone and its place each by itself, and so it prints them.
impl fmt::Debug for PoolFault {
    fn fmt<W: fmt::Write>(&self, f: &mut fmt::Formatter<W>) -> fmt::Result {
        f.debug_struct("PoolFault")
            .field("refusal", &self.refusal)
            .field("zone", &self.subject.and_then(Subject::zone))
            .field("place", &self.subject.and_then(Subject::place))
            .finish()
    }
}

// Why a call was refused: by the pool itself, or by its transport.
#[derive(Clone, Copy, PartialEq, Eq, Debug)]
pub enum Fault {
    Pool(PoolFault),
    Transport(TransportFault),
}

// Written out: which case it makes is stated, and the derive of such impls states nothing.
impl From<TransportFault> for Fault {
    ghost from_gives = { λ f r. r ≡ fault.Transport f };

    fn from(f: TransportFault) -> Fault {
        Fault::Transport(f)
    }
}

impl Fault {
    // Of a call with a zone.
    pub fn at_zone(refusal: Refusal, zone: u8) -> Fault
        ensures { facts_of result ≡ about_zone (refusal_number refusal) zone }
    {
        Fault::Pool(PoolFault {
            refusal,
            subject: Some(Subject::Zone(zone)),
        })
    }

    // Of a call without a zone, about the place of its key.
    pub fn at_place(refusal: Refusal, place: u8) -> Fault
        ensures { facts_of result ≡ about_place (refusal_number refusal) place }
    {
        Fault::Pool(PoolFault {
            refusal,
            subject: Some(Subject::Place(place)),
        })
    }

    // Of a call without a zone, whose key has no place in the pool.
    pub fn of_nothing(refusal: Refusal) -> Fault
        ensures { facts_of result ≡ about_nothing (refusal_number refusal) }
    {
        Fault::Pool(PoolFault {
            refusal,
            subject: None,
        })
    }

    // Why the call was refused.
    pub fn refusal(self) -> Refusal
        ensures { result ≡ refusal_of self }
    {
        match self {
            Fault::Pool(f) => f.refusal,
            Fault::Transport(f) => f.refusal(),
        }
    }

    pub fn number(self) -> u8
        ensures { result ≡ (facts_of self).number }
    {
        self.refusal().number()
    }

    pub fn layer(self) -> Layer
        ensures { result ≡ (facts_of self).layer }
    {
        match self {
            Fault::Pool(_) => Layer::Pool,
            Fault::Transport(f) => f.layer(),
        }
    }

    // The call's zone, if it has one.
    pub fn zone(self) -> Option<u8>
        ensures { result ≡ (facts_of self).zone }
    {
        match self {
            Fault::Pool(f) => f.subject.and_then(Subject::zone),
            Fault::Transport(f) => f.zone(),
        }
    }

    // Of a call without a zone: the key's place, if known.
    pub fn place(self) -> Option<u8>
        ensures { result ≡ (facts_of self).place }
    {
        match self {
            Fault::Pool(f) => f.subject.and_then(Subject::place),
            Fault::Transport(f) => f.place(),
        }
    }
}
