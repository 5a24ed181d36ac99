// A step of the directory, decided before anything is written, and how it is carried out.
ghost use Rattle.std.specs.Prelude.{◌≡◌, true, IfOk, if◌then◌else◌, Ok, Err};
ghost use Rattle.directory.specs.Directory.{view_of};
ghost use Rattle.transport.specs.Faults.{told, refused};
ghost use Rattle.calls.specs.Directories.{if_down_room};
ghost use Rattle.calls.specs.Sending.{sends_any, sent_down, down_admits};
ghost use Rattle.pool.specs.Pools.{model_of};
ghost use Rattle.pool.specs.Changes.{after_take, row_changed, row_done, RowReady};

use crate::line_changes::take_delivered;
use crate::opened::Opened;
use crate::reports::settled_report;
use calls::faults::Fault;
use calls::reports::Report;
use directory::records::Record;
use directory::rows::Effect;
use messages::kinds::Outgoing;
use rules::plan::places::Place;
use transport::faults::{Subject, TransportFault};
use transport::interface::Transport;
use transport::lanes::{Lane, LaneSet};
use transport::sending::{admit, send_all};

// The record of one place after its step, and all that goes with it. As with a line, that there is room (`RowReady`) speaks of the transport.
pub struct RowChange {
    pub(crate) place: Place,
    pub(crate) kept: Record,
    // the lane whose oldest message is delivered, and what the directory sends down
    pub(crate) delivered: Option<Lane>,
    pub(crate) outgoing: Outgoing,
    pub(crate) report: Report,
}

fn sends_any(outgoing: Outgoing) -> bool
    ensures { result ≡ sends_any outgoing.to }
{
    outgoing.to.iter().any(|down| down.is_some())
}

// Takes a delivered message, and sends down what there is room for.
fn carry_down<T: Transport>(
    transport: &mut T,
    delivered: Option<Lane>,
    place: Place,
    outgoing: Outgoing,
)
    requires { down_admits T.room (T.waiting transport.old) outgoing.to ≡ true }
    ensures { T.waiting transport.new ≡ sent_down (after_take (T.waiting transport.old) delivered) place outgoing.to }
{
    take_delivered(transport, delivered);
    if sends_any(outgoing) {
        let _ = send_all(
            transport,
            place.number(),
            outgoing,
            Subject::Place(place.number()),
        );
    }
}

impl<T: Transport> Opened<T> {
    // Whether there is room for what the directory would send.
    fn admits_down(&self, outgoing: Outgoing, subject: Subject) -> Result<(), TransportFault>
        ensures { told result ≡ (if down_admits T.room (T.waiting self.now.transport) outgoing.to then Ok tt else Err (refused 11 subject)) }
    {
        if !sends_any(outgoing) {
            return Ok(());
        }
        admit(&self.transport, LaneSet::down_to(outgoing), subject)
    }

    // Refusal 11, or the change that a step of the directory makes.
    pub(crate) fn row_change(
        &self,
        subject: Subject,
        place: Place,
        kept: Record,
        effect: Effect,
        delivered: Option<Lane>,
    ) -> Result<RowChange, Fault>
        ensures outcome { row_done (model_of T.Transport self.now) result ≡ if_down_room T.room (model_of T.Transport self.now) subject place effect.outgoing.to effect.settled (view_of kept.row) (after_take (T.waiting self.now.transport) delivered) }
        ensures ready { IfOk result (λ ch. RowReady T.room (T.waiting self.now.transport) ch) }
    {
        self.admits_down(effect.outgoing, subject)?;
        Ok(RowChange {
            place,
            kept,
            delivered,
            outgoing: effect.outgoing,
            report: settled_report(effect.settled.map(|zone| self.tables.number(zone, place))),
        })
    }

    // Carries out a decision on one row.
    pub(crate) fn change_row(&mut self, change: RowChange) -> Report
        requires { RowReady T.room (T.waiting self.old.transport) change }
        ensures report { result ≡ change.report }
        ensures model { model_of T.Transport self.new ≡ row_changed (model_of T.Transport self.old) change }
    {
        let RowChange {
            place,
            kept,
            delivered,
            outgoing,
            report,
        } = change;
        carry_down(&mut self.transport, delivered, place, outgoing);
        self.tables.keep(place, kept);
        report
    }
}
