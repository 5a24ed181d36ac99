// What a call does is decided before anything is written. Here: the decision as a value, and how it is carried out.
ghost use Rattle.std.specs.Prelude.{◌≡◌, true, if◌then◌else◌, Ok, Err};
ghost use Rattle.transport.specs.declared.faults.Subject.TheVariants as subject;
ghost use Rattle.transport.specs.Faults.{told, refused};
ghost use Rattle.calls.specs.Model.{state_at};
ghost use Rattle.calls.specs.Sending.{sent_up, up_admits};
ghost use Rattle.pool.specs.Pools.{model_of};
ghost use Rattle.pool.specs.Changes.{after_take, line_changed, LineReady};
ghost use Rattle.pool.specs.Steps.{effect_in, effect_seen};

use crate::line_steps::LineStep;
use crate::opened::Opened;
use calls::faults::Fault;
use calls::reports::Report;
use calls::slots::Counts;
use line::states::Effect;
use messages::kinds::{Kind, Message, Up};
use rules::plan::places::Place;
use rules::plan::zones::Zone;
use transport::faults::{Subject, TransportFault};
use transport::interface::Transport;
use transport::lanes::{Lane, LaneSet};
use transport::sending::admit;

// A step of one zone's line, and all that goes with it. That there is room for what it sends (`LineReady`) is not in the type: it speaks of the transport, which no change holds.
pub struct LineChange<S> {
    pub(crate) zone: Zone,
    pub(crate) place: Place,
    pub(crate) step: S,
    pub(crate) number: u32,
    // the lane whose oldest message is delivered, and what the line sends up
    pub(crate) delivered: Option<Lane>,
    pub(crate) sent: Option<Up>,
    pub(crate) next: u64,
    pub(crate) counts: Option<Counts>,
    pub(crate) report: Report,
}

// Takes the delivered message off its lane.
pub(crate) fn take_delivered<T: Transport>(transport: &mut T, delivered: Option<Lane>)
    ensures { T.waiting transport.new ≡ after_take (T.waiting transport.old) delivered }
{
    if let Some(lane) = delivered {
        let _ = transport.take(lane);
    }
}

// Takes a delivered message, and sends up what there is room for.
fn carry_up<T: Transport>(
    transport: &mut T,
    delivered: Option<Lane>,
    zone: Zone,
    place: Place,
    sent: Option<Up>,
)
    requires { up_admits T.room (T.waiting transport.old) zone sent ≡ true }
    ensures { T.waiting transport.new ≡ sent_up (after_take (T.waiting transport.old) delivered) zone place sent }
{
    take_delivered(transport, delivered);
    if let Some(up) = sent {
        let _ = transport.put(
            Lane::Up(zone.number()),
            Message {
                kind: Kind::Up(up),
                place: place.number(),
            },
        );
    }
}

impl<T: Transport> Opened<T> {
    // What a step of a zone's line will do, or its refusal with the zone: the step is done on a copy of the line.
    pub(crate) fn foresee<S: LineStep>(
        &self,
        zone: Zone,
        place: Place,
        step: S,
    ) -> Result<Effect, Fault>
        ensures { effect_seen result ≡ effect_in zone (S.outcome step (state_at (model_of T.Transport self.now) zone place)) }
    {
        let mut line = self.tables.slot(zone, place).line;
        step.step(&mut line)
            .map_err(|refusal| Fault::at_zone(refusal, zone.number()))
    }

    // Whether there is room for what a line would send.
    pub(crate) fn admits_up(&self, zone: Zone, sent: Option<Up>) -> Result<(), TransportFault>
        ensures { told result ≡ (if up_admits T.room (T.waiting self.now.transport) zone sent then Ok tt else Err (refused 11 (subject.Zone zone))) }
    {
        if sent.is_none() {
            return Ok(());
        }
        admit(
            &self.transport,
            LaneSet::one(Lane::Up(zone.number())),
            Subject::Zone(zone.number()),
        )
    }

    // Carries out a decision on one line.
    pub(crate) fn change_line<S: LineStep>(&mut self, change: LineChange<S>) -> Report
        requires { LineReady T.room (T.waiting self.old.transport) change }
        ensures report { result ≡ change.report }
        ensures model { model_of T.Transport self.new ≡ line_changed S.outcome (model_of T.Transport self.old) change }
    {
        let LineChange {
            zone,
            place,
            step,
            number,
            delivered,
            sent,
            next,
            counts,
            report,
        } = change;
        carry_up(&mut self.transport, delivered, zone, place, sent);
        self.tables.step(zone, place, step, number);
        self.next = next;
        if let Some(counts) = counts {
            self.tables.count(zone, counts);
        }
        report
    }
}
