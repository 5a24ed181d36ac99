// The reports of calls.
ghost use Rattle.std.specs.Prelude.{◌≡◌};
ghost use Rattle.calls.specs.Zones.{start_report, down_report};
ghost use Rattle.calls.specs.Directories.{settled_report};

use calls::reports::{Answered, Report};
use messages::requests::Answer;

// A request answered in its own start is settled there.
pub(crate) fn start_report(number: u32, answer: Option<Answer>) -> Report
    ensures { result ≡ start_report number answer }
{
    Report {
        number: Some(number),
        settled: answer.map(|_| number),
        answered: answer.map(|answer| Answered { number, answer }),
    }
}

// A delivery reports an answer under the number of the zone's request.
pub(crate) fn down_report(number: u32, answer: Option<Answer>) -> Report
    ensures { result ≡ down_report number answer }
{
    Report {
        answered: answer.map(|answer| Answered { number, answer }),
        ..Report::default()
    }
}

// A step of the directory reports the request that it settles.
pub(crate) fn settled_report(settled: Option<u32>) -> Report
    ensures { result ≡ settled_report settled }
{
    Report {
        settled,
        ..Report::default()
    }
}
