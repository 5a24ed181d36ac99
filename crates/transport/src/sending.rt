// What is proved once for every transport: a room question as a result, and messages to several zones sent together or not at all.
ghost use Rattle.std.specs.Prelude.{◌≡◌, true, Ok};
ghost use Rattle.transport.specs.Faults.{told};
ghost use Rattle.transport.specs.Sending.{admit_answer, down_marks, all_sent, send_answer, send_lists};

use crate::faults::{Subject, TransportFault};
use crate::interface::Transport;
use crate::lanes::{Lane, LaneSet};
use messages::kinds::{Kind, Message, Outgoing};

// Whether there is room on a set of lanes. A refusal names the subject.
pub fn admit<T: Transport>(
    transport: &T,
    set: LaneSet,
    subject: Subject,
) -> Result<(), TransportFault>
    ensures { told result ≡ admit_answer T.room (T.waiting transport.now) set.marks subject }
{
    if transport.has_room(set) {
        Ok(())
    } else {
        Err(TransportFault::no_room(subject))
    }
}

// Sends each zone its message about the place. A refusal names the subject, and nothing was sent.
pub fn send_all<T: Transport>(
    transport: &mut T,
    place: u8,
    outgoing: Outgoing,
    subject: Subject,
) -> Result<(), TransportFault>
    ensures answer { told result ≡ send_answer T.room (T.waiting transport.old) outgoing.to subject }
    ensures lists { T.waiting transport.new ≡ send_lists T.room (T.waiting transport.old) place outgoing.to }
{
    admit(transport, LaneSet::down_to(outgoing), subject)?;
    send_each(transport, place, outgoing)
}

// Each message in turn, where there is room for all of them.
fn send_each<T: Transport>(
    transport: &mut T,
    place: u8,
    outgoing: Outgoing,
) -> Result<(), TransportFault>
    requires { T.room (T.waiting transport.old) (down_marks outgoing.to) ≡ true }
    ensures answer { result ≡ Ok tt }
    ensures lists { T.waiting transport.new ≡ all_sent (T.waiting transport.old) place outgoing.to }
{
    for (zone, &next) in (0..8).zip(&outgoing.to) {
        if let Some(down) = next {
            transport.put(
                Lane::Down(zone),
                Message {
                    kind: Kind::Down(down),
                    place,
                },
            )?;
        }
    }
    Ok(())
}
