// What the tests share: a four-zone pool with its register, mostly over rings and with key 0 loaded at zone 0.
use calls::faults::Fault;
use calls::reports::Report;
use calls::stock::Stock;
use keys::kinds::GroupNumber;
use keys::register::Register;
use messages::assignments::Assignment;
use messages::requests::Request;
use pool::loading::Loading;
use pool::opened::Opened;
use rules::board::PauseBoard;
use rules::plan::Plan;
use std::test::Fail;
use transport::interface::Transport;
use transport::rings::Rings;

// Each test opens its pool and then makes the bench: a function that made both would hand out a Result of a struct with a lent row, which has no proof yet.
#[derive(Drop)]
pub(crate) struct Bench<'a, T> {
    pub(crate) pool: Opened<T>,
    pub(crate) register: Register<'a, GroupNumber>,
}

pub(crate) fn key(number: u64) -> GroupNumber {
    GroupNumber::new(number)
}

// The number of a refusal; none where nothing was refused.
pub(crate) fn refused<T: Drop>(res: Result<T, Fault>) -> Option<u8> {
    res.err().map(Fault::number)
}

pub(crate) fn loading(first_number: u32) -> Result<Loading<Rings>, Fail> {
    let plan = Plan::new(4, 32, first_number)?;
    Ok(Loading::new(plan, Rings::new()))
}

pub(crate) fn stock(zone: u8, number: u64) -> Result<Stock<GroupNumber>, Fail> {
    let assignment = Assignment::new(12, 5)?;
    Ok(Stock {
        zone,
        key: key(number),
        assignment,
    })
}

// Key 0 is loaded at zone 0.
pub(crate) fn opened(
    register: &mut Register<'_, GroupNumber>,
    first_number: u32,
) -> Result<Opened<Rings>, Fail> {
    let mut pool = loading(first_number)?;
    pool.load(register, stock(0, 0)?)?;
    Ok(pool.open())
}

impl<T: Transport> Bench<'_, T> {
    // A zone asks for a copy of a key.
    pub(crate) fn ask(&mut self, zone: u8, number: u64) -> Result<Report, Fault> {
        self.ask_under(&PauseBoard::new(), zone, number)
    }

    // The same while zones are paused.
    pub(crate) fn ask_under(
        &mut self,
        board: &PauseBoard,
        zone: u8,
        number: u64,
    ) -> Result<Report, Fault> {
        self.pool.start(
            &mut self.register,
            board,
            zone,
            key(number),
            Request::CarbonCopy,
        )
    }

    pub(crate) fn take_up(&mut self, number: u64) -> Result<Report, Fault> {
        self.pool.take_up(&self.register, key(number))
    }

    pub(crate) fn let_go(&mut self, zone: u8, number: u64) -> Result<Report, Fault> {
        self.pool.let_go(&self.register, zone, key(number))
    }

    // Sixteen demands of a zone, for keys that nobody has, fill its up lane over rings.
    pub(crate) fn fill_up_lane(&mut self, zone: u8) {
        for number in 100..116u64 {
            let _ = self.ask(zone, number);
        }
    }

    // Sixteen replies to a zone fill its down lane.
    pub(crate) fn fill_down_lane(&mut self, zone: u8) {
        for number in 200..216u64 {
            let _ = self.ask(zone, number);
            let _ = self.pool.deliver_up(zone);
            let _ = self.take_up(number);
        }
    }

    // Zone 1 demands a copy of key 0, and the directory asks zone 0 for it.
    pub(crate) fn ask_the_owner(&mut self) {
        let _ = self.ask(1, 0);
        let _ = self.pool.deliver_up(1);
        let _ = self.take_up(0);
    }
}
