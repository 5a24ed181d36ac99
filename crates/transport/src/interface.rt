// The interface of every backplane: what its lanes hold, its room rule with the four laws, and its calls.
ghost use Rattle.std.specs.Prelude.{◌≡◌, length};
ghost use Rattle.transport.specs.Faults.{told};
ghost use Rattle.transport.specs.Lanes.{Lists, Rule, put_answer, put_lists, oldest, waiting_count, waiting_at, taken, all_empty};
ghost use Rattle.transport.specs.Room.{PartAdmitted, RestAdmitted, TakeAdmits, EmptyAdmits};

use crate::faults::TransportFault;
use crate::lanes::{Lane, LaneSet};
use messages::kinds::Message;

// What carries messages between the zones and the directory.
pub trait Transport {
    // The waiting messages of each lane, oldest first.
    ghost waiting: { Self → Lists };

    // Given the lists alone, whether each lane of a set can take one message more.
    ghost room: { Rule };

    fn put(&mut self, lane: Lane, message: Message) -> Result<(), TransportFault>
        ensures answer { told result ≡ put_answer room (waiting self.old) lane }
        ensures lists { waiting self.new ≡ put_lists room (waiting self.old) lane message };

    fn take(&mut self, lane: Lane) -> Option<Message>
        ensures answer { result ≡ oldest (waiting self.old) lane }
        ensures lists { waiting self.new ≡ taken (waiting self.old) lane };

    // What a take would answer.
    fn look(&self, lane: Lane) -> Option<Message>
        ensures { result ≡ oldest (waiting self.now) lane }
    {
        self.look_at(lane, 0)
    }

    // How many messages wait in the lane.
    fn count(&self, lane: Lane) -> usize
        ensures { result ≡ waiting_count (waiting self.now) lane };

    // The message that has `ahead` older ones before it in its lane.
    fn look_at(&self, lane: Lane, ahead: usize) -> Option<Message>
        ensures { result ≡ waiting_at (waiting self.now) lane ahead };

    fn has_room(&self, set: LaneSet) -> bool
        ensures { result ≡ room (waiting self.now) set.marks };

    fn clear(&mut self)
        ensures { waiting self.new ≡ all_empty };

    // There is a list for each lane.
    ghost lanes: { (t : Self) → length (waiting t) ≡ 16 };

    // Part of an admitted set is admitted.
    ghost part: { PartAdmitted room };

    // After a put on one lane of an admitted set, the rest is admitted.
    ghost rest: { RestAdmitted room };

    // After a take, what was admitted still is.
    ghost fewer: { TakeAdmits room };

    // With all lanes empty every set is admitted.
    ghost empty: { EmptyAdmits room };
}
