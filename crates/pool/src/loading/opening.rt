// Opening.
ghost use Rattle.std.specs.Prelude.{◌≡◌};
ghost use Rattle.calls.specs.Opening.{JustOpened};
ghost use Rattle.pool.specs.Laws.{LawfulWith};
ghost use Rattle.pool.specs.Pools.{model_of};
ghost use Rattle.pool.specs.Stocks.{opens_as, loads_in};

use crate::loading::Loading;
use crate::opened::Opened;
use rules::plan::Plan;
use transport::interface::Transport;

// The number that the first accepted start is given.
fn first_number(plan: Plan) -> u64
    ensures { result ≡ plan.first_number }
{
    u64::from(plan.first_number())
}

impl<T: Transport + Drop> Loading<T> {
    // The pool for calls: every run of it obeys the law.
    pub fn open(self) -> Opened<T>
        ensures model { model_of T.Transport result ≡ opens_as self }
        ensures as_loaded { JustOpened (model_of T.Transport result) (loads_in (model_of T.Transport result)) }
        ensures law { LawfulWith T.room (model_of T.Transport result) (loads_in (model_of T.Transport result)) }
    {
        let Loading {
            plan,
            transport,
            tables,
        } = self;
        Opened {
            plan,
            transport,
            tables,
            next: first_number(plan),
        }
    }
}
