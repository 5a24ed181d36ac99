// Calls and results as they are printed: a line for each call.
use super::script::{Outcome, Script};
use crate::faults::Fault;
use calls::call::Call;
use calls::faults::Fault as PoolFault;
use calls::reports::Report;
use keys::kinds::GroupNumber;
use messages::requests::Answer;
use std::fmt;

pub(crate) fn tell_stock(rt: &HostRuntime, script: &Script) -> Result<(), Fault> {
    for item in script.day.stock.iter() {
        println!(rt;
            "   load         zone {} group {} {}",
            item.zone,
            item.key.number(),
            item.assignment
        )?;
    }
    Ok(())
}

// Each call with its result, under the titles of its scenes. An answer stands beside the central pool's.
pub(crate) fn tell_calls(
    rt: &HostRuntime,
    script: &Script,
    results: &[Outcome],
    central: &[Option<Answer>],
) -> Result<(), Fault> {
    let told = script
        .day
        .calls
        .iter()
        .zip(results.iter())
        .zip(central.iter());
    for (at, ((call, outcome), answer)) in told.enumerate() {
        if let Some(title) = script.titles.get(&at) {
            println!(rt; "-- {title}")?;
        }
        let outcome = OutcomeWords {
            outcome: *outcome,
            central: *answer,
        };
        tell_call(rt, CallWords(*call), outcome)?;
    }
    Ok(())
}

fn tell_call(rt: &HostRuntime, call: CallWords, outcome: OutcomeWords) -> Result<(), Fault> {
    let called = format!(in rt.alloc(); "{call}")?;
    println!(rt; "   {called:54} {outcome}")?;
    Ok(())
}

// A call in columns.
#[derive(Clone, Copy)]
struct CallWords(Call<GroupNumber>);

impl fmt::Display for CallWords {
    fn fmt<W: fmt::Write>(&self, f: &mut fmt::Formatter<W>) -> fmt::Result {
        match self.0 {
            Call::Start {
                zone,
                key,
                request,
                ..
            } => write!(
                f,
                "start        zone {zone} group {} {request}",
                key.number()
            ),
            Call::DeliverUp { zone } => write!(f, "deliver up   zone {zone}"),
            Call::DeliverDown { zone } => write!(f, "deliver down zone {zone}"),
            Call::TakeUp { key } => write!(f, "take-up             group {}", key.number()),
            Call::LetGo { zone, key } => write!(
                f,
                "let-go       zone {zone} group {}",
                key.number()
            ),
        }
    }
}

// A result, and the central pool's answer to the request that it answers.
#[derive(Clone, Copy)]
struct OutcomeWords {
    outcome: Outcome,
    central: Option<Answer>,
}

impl fmt::Display for OutcomeWords {
    fn fmt<W: fmt::Write>(&self, f: &mut fmt::Formatter<W>) -> fmt::Result {
        match self.outcome {
            Ok(report) => show_report(report, self.central, f),
            Err(fault) => show_fault(fault, f),
        }
    }
}

fn show_report<W: fmt::Write>(
    report: Report,
    central: Option<Answer>,
    f: &mut fmt::Formatter<W>,
) -> fmt::Result {
    f.write_str("accepted")?;
    if let Some(number) = report.number {
        write!(f, " as {number}")?;
    }
    if let Some(number) = report.settled {
        write!(f, ", settled {number}")?;
    }
    if let Some(answered) = report.answered {
        write!(f, ", answered {} {}", answered.number, answered.answer)?;
    }
    if let Some(answer) = central {
        write!(f, " (central pool: {answer})")?;
    }
    Ok(())
}

fn show_fault<W: fmt::Write>(fault: PoolFault, f: &mut fmt::Formatter<W>) -> fmt::Result {
    write!(f, "refused by {}", fault.number())?;
    if let Some(zone) = fault.zone() {
        write!(f, " at zone {zone}")?;
    }
    if let Some(place) = fault.place() {
        write!(f, " at place {place}")?;
    }
    write!(f, ": {}", fault.refusal())
}
