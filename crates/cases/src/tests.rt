// The refusals of the two steps by their numbers.
use directory::records::Record;
use line::lines::Line;
use messages::kinds::{Ask, Demand, Down, Kind, Reply, Up};
use messages::refusals::Refusal;
use messages::requests::Request;
use std::test::Fail;

// The number of a refusal; none where nothing was refused.
fn refused<T: Drop>(res: Result<T, Refusal>) -> Option<u8> {
    res.err().map(Refusal::number)
}

fn demand(demand: Demand) -> Kind {
    Kind::Up(Up::Demand(demand))
}

#[test]
fn waiting_line_takes_no_request(rt: HostRuntime) {
    let mut line = Line::fresh();
    assert_eq!(rt; refused(line.let_go()), Some(12));
    assert_eq!(rt; refused(line.request(Request::CarbonCopy)), None);
    assert_eq!(rt; refused(line.request(Request::Remove)), Some(9));
    assert_eq!(rt; refused(line.let_go()), Some(12));
}

#[test]
fn line_has_no_place_for_a_message(rt: HostRuntime) {
    let mut line = Line::fresh();
    assert_eq!(rt; refused(line.receive(Kind::Up(Up::Purged))), Some(17));
    assert_eq!(rt;
        refused(line.receive(Kind::Down(Down::Reply(Reply::NoDataFound)))),
        Some(17)
    );
    assert_eq!(rt;
        refused(line.receive(Kind::Down(Down::Ask(Ask::SendData)))),
        None
    );
}

#[test]
fn take_up_while_served_and_with_nothing_waiting(rt: HostRuntime) -> Result<(), Fail> {
    let mut record = Record::loaded(0)?;
    assert_eq!(rt; refused(record.take_up()), Some(16));
    assert_eq!(rt;
        refused(record.deliver(1, demand(Demand::GetSharedData))),
        None
    );
    assert_eq!(rt; refused(record.take_up()), None);
    assert_eq!(rt; refused(record.take_up()), Some(15));
    Ok(())
}

#[test]
fn directory_has_no_place_for_a_message(rt: HostRuntime) -> Result<(), Fail> {
    let mut record = Record::loaded(0)?;
    assert_eq!(rt; refused(Record::loaded(8)), Some(17));
    assert_eq!(rt;
        refused(record.deliver(8, demand(Demand::PurgeAll))),
        Some(17)
    );
    assert_eq!(rt; refused(record.deliver(1, Kind::Up(Up::Report))), Some(17));
    assert_eq!(rt; refused(record.deliver(0, Kind::Up(Up::Purged))), Some(17));
    assert_eq!(rt;
        refused(record.deliver(0, Kind::Down(Down::Ask(Ask::Invalidate)))),
        Some(17)
    );
    Ok(())
}

#[test]
fn listed_zone_has_what_it_asks_for(rt: HostRuntime) -> Result<(), Fail> {
    let mut record = Record::loaded(0)?;
    assert_eq!(rt;
        refused(record.deliver(0, demand(Demand::GetExclusiveData))),
        None
    );
    assert_eq!(rt;
        refused(record.deliver(0, demand(Demand::GetSharedData))),
        Some(17)
    );
    assert_eq!(rt; refused(record.take_up()), Some(17));
    Ok(())
}
