// The zones, the directory and the lanes between them for one key, and the central table beside them. Each move is printed.
use crate::central::Central;
use crate::faults::Fault;
use crate::words::LaneWords;
use crate::zones::Zones;
use directory::records::Record;
use directory::rows;
use line::lines::Line;
use line::states;
use messages::assignments::Assignment;
use messages::kinds::{Kind, Message, Outgoing, Up};
use messages::requests::{Answer, Request};
use transport::faults::Subject;
use transport::interface::Transport;
use transport::lanes::Lane;
use transport::sending::send_all;

// The key's place.
const PLACE: u8 = 0;

#[derive(Drop)]
pub(crate) struct Bench<'a, T> {
    rt: &'a HostRuntime,
    lanes: T,
    directory: Record,
    zones: Zones,
    central: Central,
    answers: Vec<Answer>,
}

// What a shift leaves: the answers in their order, and the zones with their counts.
#[derive(Drop)]
pub(crate) struct Shift {
    pub(crate) answers: Vec<Answer>,
    pub(crate) zones: Zones,
}

impl<'a, T: Transport + Drop> Bench<'a, T> {
    // One zone has the key's assignment, and all lanes are empty.
    pub(crate) fn loaded(
        rt: &'a HostRuntime,
        transport: T,
        zone: u8,
        assignment: Assignment,
    ) -> Result<Bench<'a, T>, Fault> {
        let mut lanes = transport;
        lanes.clear();
        let mut zones = Zones::fresh();
        zones.at(zone)?.line = Line::loaded(assignment);
        let directory = Record::loaded(zone)?;
        Ok(Bench {
            rt,
            lanes,
            directory,
            zones,
            central: Central::holding(assignment),
            answers: Vec::new(rt.alloc()),
        })
    }

    pub(crate) fn end(self) -> Shift {
        let Bench {
            rt,
            lanes,
            directory,
            zones,
            central,
            answers,
        } = self;
        Shift { answers, zones }
    }

    // What comes next, in words.
    pub(crate) fn title(&self, words: &str) -> Result<(), Fault> {
        println!(self.rt; "-- {words}")?;
        Ok(())
    }

    // A user's request at a zone.
    pub(crate) fn start(&mut self, zone: u8, request: Request) -> Result<(), Fault> {
        println!(self.rt; "   zone {zone} starts {request}")?;
        let effect = self.zones.at(zone)?.request(request)?;
        self.central.accept(zone, request);
        if effect.answer.is_some() {
            self.central.settle(zone);
        }
        self.follow_line(zone, effect)
    }

    // A zone drops a copy that it shares and does not own.
    pub(crate) fn let_go(&mut self, zone: u8) -> Result<(), Fault> {
        println!(self.rt; "   zone {zone} lets go")?;
        let effect = self.zones.at(zone)?.line.let_go()?;
        self.follow_line(zone, effect)
    }

    // The oldest message of a zone's up lane reaches the directory.
    pub(crate) fn deliver_up(&mut self, zone: u8) -> Result<(), Fault> {
        let kind = self.take(Lane::Up(zone))?;
        let effect = self.directory.deliver(zone, kind)?;
        self.follow_directory(effect)
    }

    // The directory serves the first waiting request.
    pub(crate) fn take_up(&mut self) -> Result<(), Fault> {
        println!(self.rt; "   the directory takes up")?;
        let effect = self.directory.take_up()?;
        self.follow_directory(effect)
    }

    // The oldest message of a zone's down lane reaches the zone's line.
    pub(crate) fn deliver_down(&mut self, zone: u8) -> Result<(), Fault> {
        let kind = self.take(Lane::Down(zone))?;
        let line = &mut self.zones.at(zone)?.line;
        let effect = line.receive(kind)?;
        println!(self.rt; "   zone {zone} is in {}", line.state())?;
        self.follow_line(zone, effect)
    }

    fn take(&mut self, lane: Lane) -> Result<Kind, Fault> {
        let (Lane::Up(zone) | Lane::Down(zone)) = lane;
        let message = self.lanes.take(lane).ok_or(Fault::LaneEmpty(zone))?;
        self.tell("delivered", lane, message.kind)?;
        Ok(message.kind)
    }

    // What a zone's line sends goes up, and what it answers is compared.
    fn follow_line(&mut self, zone: u8, effect: states::Effect) -> Result<(), Fault> {
        if let Some(up) = effect.sent {
            self.send_up(zone, up)?;
        }
        if let Some(answer) = effect.answer {
            self.answer(zone, answer)?;
        }
        Ok(())
    }

    // What the directory sends goes down, and what it settles is told.
    fn follow_directory(&mut self, effect: rows::Effect) -> Result<(), Fault> {
        self.send_down(effect.outgoing)?;
        if let Some(zone) = effect.settled {
            self.central.settle(zone);
            println!(self.rt; "   zone {zone}'s request is settled")?;
        }
        Ok(())
    }

    fn send_up(&mut self, zone: u8, up: Up) -> Result<(), Fault> {
        let lane = Lane::Up(zone);
        let kind = Kind::Up(up);
        self.lanes.put(lane, Message { kind, place: PLACE })?;
        self.tell("sent", lane, kind)
    }

    fn send_down(&mut self, outgoing: Outgoing) -> Result<(), Fault> {
        send_all(&mut self.lanes, PLACE, outgoing, Subject::Place(PLACE))?;
        for (zone, sent) in (0..).zip(outgoing.to.iter()) {
            if let Some(down) = sent {
                self.tell("sent", Lane::Down(zone), Kind::Down(*down))?;
            }
        }
        Ok(())
    }

    // An answer is the central table's.
    fn answer(&mut self, zone: u8, answer: Answer) -> Result<(), Fault> {
        let central = self.central.kept(zone).ok_or(Fault::NotSettled(zone))?;
        println!(self.rt; "   zone {zone} answers {answer}; the central table: {central}")?;
        if answer != central {
            return Err(Fault::AnswerDiffers(zone));
        }
        self.answers.push(answer)?;
        Ok(())
    }

    // Tells of a message on a lane.
    fn tell(&self, event: &str, lane: Lane, kind: Kind) -> Result<(), Fault> {
        println!(self.rt; "      {event:9} {} {kind}", LaneWords(lane))?;
        Ok(())
    }
}
