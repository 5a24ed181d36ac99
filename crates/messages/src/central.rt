// The central pool for one key: one table, one request at a time. The whole pool answers as it does.
ghost use Rattle.std.specs.Prelude.{◌≡◌};
ghost use Rattle.messages.specs.Central.{answered, left, old_answer};

use crate::assignments::Assignment;
use crate::requests::{Answer, Request};

// The answer that tells what was there.
fn old_answer(old: Option<Assignment>) -> Answer
    ensures { result ≡ old_answer old }
{
    old.map_or(Answer::Nothing, Answer::Old)
}

// What the central pool answers where the key had `old`.
pub fn answer(request: Request, old: Option<Assignment>) -> Answer
    ensures { result ≡ answered request old }
{
    match request {
        Request::CarbonCopy
        | Request::GetIfAnyAndPut(_)
        | Request::GetAndPutIfAny(_)
        | Request::GetIfAny => old_answer(old),
        Request::Put(_) => Answer::Stored,
        Request::Remove => old.map_or(Answer::Nothing, |_| Answer::Removed),
    }
}

// What the key has after the request.
pub fn key_after(request: Request, old: Option<Assignment>) -> Option<Assignment>
    ensures { result ≡ left request old }
{
    match request {
        Request::CarbonCopy => old,
        Request::Put(new) | Request::GetIfAnyAndPut(new) => Some(new),
        Request::GetAndPutIfAny(new) => old.and(Some(new)),
        Request::GetIfAny | Request::Remove => None,
    }
}
