// A message from the directory at a line.
ghost use Rattle.std.specs.Prelude.{◌≡◌, OnErr};
ghost use Rattle.messages.specs.Refusals.{numbered};
ghost use Rattle.line.specs.Outcomes.{outcome_of};
ghost use Rattle.line.specs.Received.{received, asked, replied, of_owner, given, with_rest, old_answered, write_ends, write_if_any_ends, purge_ends, read_ends};

use crate::lines::Line;
use crate::states::{Effect, Purge, State, Write};
use messages::assignments::Assignment;
use messages::kinds::{Ask, Down, Kind, Reply, Up};
use messages::refusals::Refusal;
use messages::requests::Answer;

impl Line {
    // What a message does; one that travels up has no place here.
    pub fn receive(&mut self, kind: Kind) -> Result<Effect, Refusal>
        ensures { outcome_of result self.new.state ≡ received self.old.state kind }
    {
        match kind {
            Kind::Up(_) => Err(Refusal::Misplaced),
            Kind::Down(Down::Ask(ask)) => self.comply(ask),
            Kind::Down(Down::Reply(reply)) => self.end_wait(reply),
        }
    }

    fn comply(&mut self, ask: Ask) -> Result<Effect, Refusal>
        ensures { outcome_of result self.new.state ≡ asked self.old.state ask }
    {
        let sent = match &mut self.state {
            State::Exclusive(copy) | State::SharedOwned(copy) => {
                let (sent, next) = of_owner(*copy, ask);
                self.state = next;
                sent
            }
            State::SharedUnowned(_) => {
                if ask != Ask::Invalidate {
                    return Err(Refusal::Misplaced);
                }
                self.state = State::Invalid;
                Up::Purged
            }
            // Three arms: where `|` joins them, the check loses that the line keeps its request beside the copy that is lent out.
            State::WaitingExclusion(_, copy) => give(copy, ask)?,
            State::WaitingExclusionIfAny(_, copy) => give(copy, ask)?,
            State::WaitingPurge(_, copy) => give(copy, ask)?,
            _ => return Ok(Effect::default()),
        };
        Ok(Effect::sends(sent))
    }

    fn end_wait(&mut self, reply: Reply) -> Result<Effect, Refusal>
        ensures { outcome_of result self.new.state ≡ replied self.old.state reply }
    {
        let (answer, next) = match self.state {
            State::WaitingExclusion(write, copy) => write_ends(write, copy, reply)?,
            State::WaitingExclusiveData(write) => write_ends(write, None, reply)?,
            State::WaitingExclusionIfAny(new, copy) => write_if_any_ends(new, copy, reply)?,
            State::WaitingExclusiveDataIfAny(new) => write_if_any_ends(new, None, reply)?,
            State::WaitingPurge(purge, copy) => purge_ends(purge, copy, reply)?,
            State::WaitingPurgeData(purge) => purge_ends(purge, None, reply)?,
            State::WaitingSharedData => read_ends(reply)?,
            _ => return Err(Refusal::Misplaced),
        };
        self.state = next;
        Ok(Effect::answers(answer))
    }
}

// What a line in E or SO sends, and what it becomes.
fn of_owner(copy: Assignment, ask: Ask) -> (Up, State)
    ensures { result ≡ of_owner copy ask }
{
    match ask {
        Ask::SendData => (Up::Data(copy), State::SharedUnowned(copy)),
        Ask::SendDataAndInvalidate => (Up::Data(copy), State::Invalid),
        Ask::Invalidate => (Up::Purged, State::Invalid),
    }
}

// What a line that waits with a copy sends. The copy is kept only where data alone is asked for.
fn give(copy: &mut Option<Assignment>, ask: Ask) -> Result<Up, Refusal>
    ensures gives { with_rest result copy.new ≡ given copy.old ask }
    ensures refused { OnErr result (copy.new ≡ copy.old) }
{
    let held = copy.ok_or(Refusal::Misplaced)?;
    if ask != Ask::SendData {
        *copy = None;
    }
    Ok(match ask {
        Ask::SendData | Ask::SendDataAndInvalidate => Up::Data(held),
        Ask::Invalidate => Up::Purged,
    })
}

// The answer "old" of a line that has `copy` left: the message's assignment, the copy, or none.
fn old_answer(copy: Option<Assignment>, reply: Reply) -> Result<Answer, Refusal>
    ensures { numbered result ≡ old_answered copy reply }
{
    match reply {
        Reply::DataFound(found) => Ok(Answer::Old(found)),
        Reply::ExclusionMade => copy.map(Answer::Old).ok_or(Refusal::Misplaced),
        Reply::NoDataFound => Ok(Answer::Nothing),
    }
}

// WE and WED become E with the new assignment.
fn write_ends(
    write: Write,
    copy: Option<Assignment>,
    reply: Reply,
) -> Result<(Answer, State), Refusal>
    ensures { numbered result ≡ write_ends write copy reply }
{
    let (answer, new) = match write {
        Write::Put(new) => (Answer::Stored, new),
        Write::GetIfAnyAndPut(new) => (old_answer(copy, reply)?, new),
    };
    Ok((answer, State::Exclusive(new)))
}

// WEI and WEID become E with the new assignment, or I where no data was found.
fn write_if_any_ends(
    new: Assignment,
    copy: Option<Assignment>,
    reply: Reply,
) -> Result<(Answer, State), Refusal>
    ensures { numbered result ≡ write_if_any_ends new copy reply }
{
    let next = match reply {
        Reply::DataFound(_) | Reply::ExclusionMade => State::Exclusive(new),
        Reply::NoDataFound => State::Invalid,
    };
    Ok((old_answer(copy, reply)?, next))
}

// WP and WPD become I. A remove is answered removed, unless no data was found.
fn purge_ends(
    purge: Purge,
    copy: Option<Assignment>,
    reply: Reply,
) -> Result<(Answer, State), Refusal>
    ensures { numbered result ≡ purge_ends purge copy reply }
{
    let answer = match purge {
        Purge::GetIfAny => old_answer(copy, reply)?,
        Purge::Remove if reply == Reply::NoDataFound => Answer::Nothing,
        Purge::Remove => Answer::Removed,
    };
    Ok((answer, State::Invalid))
}

// WSD becomes SO with the data found, or I.
fn read_ends(reply: Reply) -> Result<(Answer, State), Refusal>
    ensures { numbered result ≡ read_ends reply }
{
    match reply {
        Reply::DataFound(found) => Ok((Answer::Old(found), State::SharedOwned(found))),
        Reply::ExclusionMade => Err(Refusal::Misplaced),
        Reply::NoDataFound => Ok((Answer::Nothing, State::Invalid)),
    }
}
