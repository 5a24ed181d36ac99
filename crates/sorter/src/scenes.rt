// The scenario: what the zones start, and in which order the messages are delivered.
use crate::bench::{Bench, Shift};
use crate::faults::Fault;
use messages::assignments::Assignment;
use messages::requests::Request;
use transport::interface::Transport;

pub(crate) fn run<T: Transport + Drop>(rt: &HostRuntime, transport: T) -> Result<Shift, Fault> {
    println!(rt; "-- zone 0 is loaded with 12/5")?;
    let mut bench = Bench::loaded(rt, transport, 0, Assignment::new(12, 5)?)?;
    bench.title("zone 1 misses, and the owner serves it")?;
    bench.read_from(1, 0)?;
    bench.title("zone 2 reads too")?;
    bench.read_from(2, 1)?;
    bench.let_go_and_read()?;
    bench.write_over_readers(Assignment::new(40, 6)?)?;
    bench.extraction_crosses_invalidate(Assignment::new(7, 8)?)?;
    bench.remove()?;
    bench.read_nothing()?;
    Ok(bench.end())
}

impl<T: Transport + Drop> Bench<'_, T> {
    // A zone's request, which its line does not answer by itself, reaches the directory and is served first.
    fn demand(&mut self, zone: u8, request: Request) -> Result<(), Fault> {
        self.start(zone, request)?;
        self.deliver_up(zone)?;
        self.take_up()
    }

    // A zone without a copy reads, and the owner supplies the copy.
    fn read_from(&mut self, zone: u8, owner: u8) -> Result<(), Fault> {
        self.demand(zone, Request::CarbonCopy)?;
        self.deliver_down(owner)?;
        self.deliver_up(owner)?;
        self.deliver_down(zone)
    }

    fn let_go_and_read(&mut self) -> Result<(), Fault> {
        self.title("zone 1 lets go of its copy, and reads again; zone 0 reads what it has")?;
        self.let_go(1)?;
        self.deliver_up(1)?;
        self.read_from(1, 2)?;
        self.start(0, Request::CarbonCopy)
    }

    fn write_over_readers(&mut self, new: Assignment) -> Result<(), Fault> {
        self.title("zone 0 writes, and the other readers are invalidated")?;
        self.demand(0, Request::GetIfAnyAndPut(new))?;
        self.deliver_down(1)?;
        self.deliver_down(2)?;
        self.deliver_up(2)?;
        self.deliver_up(1)?;
        self.deliver_down(0)
    }

    fn extraction_crosses_invalidate(&mut self, new: Assignment) -> Result<(), Fault> {
        self.title("zone 1 puts; zone 0's extraction crosses the invalidate")?;
        self.demand(1, Request::Put(new))?;
        self.start(0, Request::GetIfAny)?;
        self.deliver_down(0)?;
        self.deliver_up(0)?;
        self.deliver_down(1)
    }

    fn remove(&mut self) -> Result<(), Fault> {
        self.title("zone 2 removes what zone 1 has")?;
        self.demand(2, Request::Remove)?;
        self.deliver_down(1)?;
        self.deliver_up(1)?;
        self.deliver_down(2)
    }

    fn read_nothing(&mut self) -> Result<(), Fault> {
        self.title("zone 0 reads, and nothing is found")?;
        self.demand(0, Request::CarbonCopy)?;
        self.deliver_down(0)
    }
}
