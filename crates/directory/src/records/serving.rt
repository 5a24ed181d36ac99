// How a record goes on with the request that it serves.
ghost use Rattle.std.specs.Prelude.{◌≡◌, Some, Ok};
ghost use Rattle.directory.specs.Directory.{directory, view_of, outcome_of};
ghost use Rattle.directory.specs.Lists.{items_of, without};
ghost use Rattle.directory.specs.Serving.{ended, goes_on};

use crate::records::Record;
use crate::rows::{Effect, Row, Served};
use messages::kinds::{Down, Outgoing};

impl Record {
    // Strikes a zone off the cache list.
    pub(crate) fn strike(&mut self, zone: u8)
        ensures { view_of self.new.row ≡ directory (without zone (items_of self.old.row.list)) (items_of self.old.row.waiting) self.old.row.served }
    {
        self.row.list = self.row.list.strike(zone);
    }

    // Ends the served request: its zone gets the reply.
    fn end(&mut self, served: Served) -> Effect
        requires { self.old.row.served ≡ Some served }
        ensures { outcome_of (Ok result) (view_of self.new.row) ≡ ended served (items_of self.old.row.list) (items_of self.old.row.waiting) }
    {
        let reply = served.reply();
        self.row = Row {
            list: served.list_left(reply, self.row.list),
            served: None,
            ..self.row
        };
        Effect {
            outgoing: Outgoing::one(served.zone, Down::Reply(reply)),
            settled: Some(served.zone),
        }
    }

    // Goes on with the served request, if any, after these messages, or ends it where nobody is awaited.
    pub(crate) fn go_on(&mut self, outgoing: Outgoing) -> Effect
        ensures { outcome_of (Ok result) (view_of self.new.row) ≡ goes_on outgoing.to self.old.row.served (items_of self.old.row.list) (items_of self.old.row.waiting) }
    {
        match self.row.served {
            Some(served) if !served.awaits_any(self.row.list) => self.end(served),
            _ => Effect {
                outgoing,
                settled: None,
            },
        }
    }
}
