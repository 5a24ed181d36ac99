// A small shift report: places of cage tags, a hold on the pause board, and the zones' hit shares.
use crate::faults::Fault;
use crate::shares;
use crate::zones::Zones;
use keys::kinds::CageTag;
use keys::register::Register;
use messages::refusals::Refusal;
use rules::board::PauseBoard;

pub(crate) fn report(rt: &HostRuntime, zones: Zones) -> Result<(), Fault> {
    println!(rt; "== shift report")?;
    places(rt)?;
    holds(rt)?;
    shares::tell(rt, &zones.counts(), "answered by itself")
}

fn places(rt: &HostRuntime) -> Result<(), Fault> {
    let mut row = [CageTag::new(0, 0, 0); 4];
    let mut register = Register::new(&mut row);
    let tags = [
        CageTag::new(7, 70, 1),
        CageTag::new(7, 71, 1),
        CageTag::new(9, 70, 1),
        CageTag::new(7, 70, 2),
    ];
    for tag in tags {
        let place = register.add(tag).ok_or(Refusal::NoPlace)?;
        println!(rt;
            "   carrier {} cage {} reprint {}: place {place}",
            tag.carrier(),
            tag.cage(),
            tag.reprint()
        )?;
    }
    Ok(())
}

fn holds(rt: &HostRuntime) -> Result<(), Fault> {
    let mut board = PauseBoard::new();
    tell_open(rt, "before the hold", &board)?;
    hold(rt, &mut board)?;
    tell_open(rt, "after the hold", &board)
}

fn hold(rt: &HostRuntime, board: &mut PauseBoard) -> Result<(), Fault> {
    let hold = board.hold(2);
    tell_open(rt, "under the hold", hold.board())
}

fn tell_open(rt: &HostRuntime, when: &str, board: &PauseBoard) -> Result<(), Fault> {
    match board.check_open(2) {
        Ok(()) => println!(rt; "   {when} zone 2 takes starts")?,
        Err(refusal) => println!(rt; "   {when} zone 2 refuses starts by {}", refusal.number())?,
    }
    Ok(())
}
