// The script of a morning: the lines of its table as the plan, the stock and the calls that a pool is given.
use super::scenes::SCENES;
use crate::faults::Fault;
use calls::call::Call;
use calls::faults::Fault as PoolFault;
use calls::reports::Report;
use calls::stock::Stock;
use keys::kinds::GroupNumber;
use messages::assignments::Assignment;
use messages::refusals::Refusal;
use messages::requests::Request;
use rules::board::PauseBoard;
use rules::plan::Plan;
use std::alloc::Global;
use std::collections::BTreeMap;

pub(crate) const ZONES: usize = 4;

pub(crate) const PLACES: usize = 4;

// The result of a call.
pub(crate) type Outcome = Result<Report, PoolFault>;

// A request, an assignment being written as chute and wave: the table is a constant, and a constant cannot call the check that makes an assignment.
#[derive(Clone, Copy)]
pub(crate) enum Wish {
    CarbonCopy,
    Put(u16, u32),
    GetIfAnyAndPut(u16, u32),
    GetAndPutIfAny(u16, u32),
    GetIfAny,
    Remove,
}

// A line of the table: zone first, then the group's number.
#[derive(Clone, Copy)]
pub(crate) enum Line {
    // what follows, in words
    Title(&'static str),
    // an assignment of the stock, as chute and wave
    Load(u8, u64, u16, u32),
    // the pause board's mark for the starts that follow
    Pause(u8),
    Resume(u8),
    Start(u8, u64, Wish),
    DeliverUp(u8),
    DeliverDown(u8),
    TakeUp(u64),
    LetGo(u8, u64),
}

// What a pool is given: its plan, the stock to load, and the calls.
#[derive(Drop)]
pub(crate) struct Day<K> {
    pub(crate) plan: Plan,
    pub(crate) stock: Vec<Stock<K>>,
    pub(crate) calls: Vec<Call<K>>,
}

#[derive(Drop)]
pub(crate) struct Script {
    pub(crate) day: Day<GroupNumber>,
    // words that stand before a call, by how many calls stand before them
    pub(crate) titles: BTreeMap<usize, &'static str>,
    board: PauseBoard,
}

// The whole table.
pub(crate) fn morning(heap: Global) -> Result<Script, Fault> {
    let day = Day {
        plan: Plan::new(ZONES as u8, PLACES as u8, 101)?,
        stock: Vec::new(heap),
        calls: Vec::new(heap),
    };
    let mut script = Script {
        day,
        titles: BTreeMap::new(heap),
        board: PauseBoard::new(),
    };
    for scene in SCENES {
        for line in scene {
            script.add(*line)?;
        }
    }
    Ok(script)
}

impl Script {
    fn add(&mut self, line: Line) -> Result<(), Fault> {
        match line {
            Line::Title(text) => self.add_title(text),
            Line::Load(zone, group, chute, wave) => self.add_stock(Stock {
                zone,
                key: GroupNumber::new(group),
                assignment: Assignment::new(chute, wave)?,
            }),
            Line::Pause(zone) => Ok(self.board.mark(zone, true)),
            Line::Resume(zone) => Ok(self.board.mark(zone, false)),
            Line::Start(zone, group, wish) => {
                self.add_call(Call::Start {
                    zone,
                    key: GroupNumber::new(group),
                    request: wish.try_into()?,
                    board: self.board,
                })
            }
            Line::DeliverUp(zone) => self.add_call(Call::DeliverUp { zone }),
            Line::DeliverDown(zone) => self.add_call(Call::DeliverDown { zone }),
            Line::TakeUp(group) => self.add_call(Call::TakeUp {
                key: GroupNumber::new(group),
            }),
            Line::LetGo(zone, group) => self.add_call(Call::LetGo {
                zone,
                key: GroupNumber::new(group),
            }),
        }
    }

    fn add_title(&mut self, text: &'static str) -> Result<(), Fault> {
        self.titles.insert(self.day.calls.len(), text)?;
        Ok(())
    }

    fn add_stock(&mut self, item: Stock<GroupNumber>) -> Result<(), Fault> {
        self.day.stock.push(item)?;
        Ok(())
    }

    fn add_call(&mut self, call: Call<GroupNumber>) -> Result<(), Fault> {
        self.day.calls.push(call)?;
        Ok(())
    }
}

impl TryFrom<Wish> for Request {
    type Error = Refusal;

    fn try_from(wish: Wish) -> Result<Request, Refusal> {
        Ok(match wish {
            Wish::CarbonCopy => Request::CarbonCopy,
            Wish::Put(chute, wave) => Request::Put(Assignment::new(chute, wave)?),
            Wish::GetIfAnyAndPut(chute, wave) => Request::GetIfAnyAndPut(Assignment::new(
                chute, wave,
            )?),
            Wish::GetAndPutIfAny(chute, wave) => Request::GetAndPutIfAny(Assignment::new(
                chute, wave,
            )?),
            Wish::GetIfAny => Request::GetIfAny,
            Wish::Remove => Request::Remove,
        })
    }
}
