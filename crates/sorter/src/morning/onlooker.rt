// An onlooker: it sees the stock, the calls and their results, and is the central pool. Keys that mean the same are one key to it.
use super::script::{Day, Outcome};
use crate::faults::Fault;
use calls::call::Call;
use calls::reports::Answered;
use keys::key::Key;
use messages::assignments::Assignment;
use messages::central;
use messages::requests::{Answer, Request};
use std::alloc::Global;
use thiserror::Error;

// What the onlooker objects to, with the number of the request.
#[derive(Clone, Copy, Debug, Error)]
pub(crate) enum Objection {
    #[error("an accepted start has no number, or not the next one: {0:?}")]
    Numbered(Option<u32>),
    #[error("{0} is settled without being accepted, or a second time")]
    Settled(u32),
    #[error("{0} is answered without being settled, or a second time")]
    Answered(u32),
    #[error("{0} is answered otherwise than by the central pool")]
    Differs(u32),
    #[error("there is not a result for each call")]
    Results,
    #[error("a start is accepted and never answered")]
    Unanswered,
}

#[derive(Clone, Copy, PartialEq, Eq)]
enum Progress {
    Accepted,
    Settled(Answer),
    Answered,
}

#[derive(Clone, Copy)]
struct Entry<K> {
    key: K,
    request: Request,
    progress: Progress,
}

// What the central pool holds for a key. A key tells only whether another is the same: it has no order and no hash, so the keys
// stand in a list and not in a map.
#[derive(Clone, Copy)]
struct Held<K> {
    key: K,
    assignment: Option<Assignment>,
}

#[derive(Drop)]
struct Onlooker<K> {
    first_number: u32,
    // the accepted starts by their numbers, counted from the first
    entries: Vec<Entry<K>>,
    held: Vec<Held<K>>,
}

// What the onlooker saw: how many starts were accepted, and for each call the central pool's answer to the request that it answered, if any.
#[derive(Drop)]
pub(crate) struct Seen {
    pub(crate) accepted: usize,
    pub(crate) answers: Vec<Option<Answer>>,
}

// Watches a whole day, at the end of which every accepted start is answered.
pub(crate) fn watch<K: Key + Copy>(
    day: &Day<K>,
    results: &[Outcome],
    heap: Global,
) -> Result<Seen, Fault> {
    if day.calls.len() != results.len() {
        return Err(Objection::Results.into());
    }
    let mut onlooker = Onlooker::before(day, heap)?;
    let mut answers = Vec::new(heap);
    for (call, outcome) in day.calls.iter().zip(results.iter()) {
        answers.push(onlooker.see(*call, *outcome)?)?;
    }
    onlooker.check_all_answered()?;
    Ok(Seen {
        accepted: onlooker.entries.len(),
        answers,
    })
}

impl<K: Key + Copy> Onlooker<K> {
    // The central pool holds the stock.
    fn before(day: &Day<K>, heap: Global) -> Result<Onlooker<K>, Fault> {
        let held = day
            .stock
            .iter()
            .map(|item| Held {
                key: item.key,
                assignment: Some(item.assignment),
            })
            .collect(heap)?;
        Ok(Onlooker {
            first_number: day.plan.first_number(),
            entries: Vec::new(heap),
            held,
        })
    }

    // A refused call changes nothing.
    fn see(&mut self, call: Call<K>, res: Outcome) -> Result<Option<Answer>, Fault> {
        let Ok(report) = res else {
            return Ok(None);
        };
        if let Call::Start { key, request, .. } = call {
            self.accept(report.number, key, request)?;
        }
        if let Some(number) = report.settled {
            self.settle(number)?;
        }
        Ok(
            report
                .answered
                .map(|answered| self.compare(answered))
                .transpose()?,
        )
    }

    // Keeps key and request under the number given, which is the next one.
    fn accept(&mut self, number: Option<u32>, key: K, request: Request) -> Result<(), Fault> {
        let place = number.and_then(|given| self.place(given));
        if place != Some(self.entries.len()) {
            return Err(Objection::Numbered(number).into());
        }
        self.entries.push(Entry {
            key,
            request,
            progress: Progress::Accepted,
        })?;
        Ok(())
    }

    // The request is served by the table at this moment, and its answer kept.
    fn settle(&mut self, number: u32) -> Result<(), Fault> {
        let Some(
            Entry {
                key,
                request,
                progress: Progress::Accepted,
            },
        ) = self.entry(number)
        else {
            return Err(Objection::Settled(number).into());
        };
        let old = self.holding(&key);
        self.hold(key, central::key_after(request, old))?;
        self.advance(number, Progress::Settled(central::answer(request, old)));
        Ok(())
    }

    // The answer given is the one kept.
    fn compare(&mut self, answered: Answered) -> Result<Answer, Objection> {
        let number = answered.number;
        let Some(Progress::Settled(kept)) = self.entry(number).map(|entry| entry.progress) else {
            return Err(Objection::Answered(number));
        };
        if answered.answer != kept {
            return Err(Objection::Differs(number));
        }
        self.advance(number, Progress::Answered);
        Ok(kept)
    }

    fn check_all_answered(&self) -> Result<(), Objection> {
        let answered = self
            .entries
            .iter()
            .all(|entry| entry.progress == Progress::Answered);
        if answered {
            Ok(())
        } else {
            Err(Objection::Unanswered)
        }
    }

    fn place(&self, number: u32) -> Option<usize> {
        number
            .checked_sub(self.first_number)
            .map(|place| place as usize)
    }

    fn entry(&self, number: u32) -> Option<Entry<K>> {
        self.entries.get(self.place(number)?).copied()
    }

    fn advance(&mut self, number: u32, progress: Progress) {
        if let Some(place) = self.place(number)
            && let Some(entry) = self.entries.get_mut(place)
        {
            entry.progress = progress;
        }
    }

    fn holding(&self, key: &K) -> Option<Assignment> {
        self.held.iter().find(|held| held.key.same(key))?.assignment
    }

    fn hold(&mut self, key: K, assignment: Option<Assignment>) -> Result<(), Fault> {
        match self.held.iter_mut().find(|held| held.key.same(&key)) {
            Some(held) => held.assignment = assignment,
            None => self.held.push(Held { key, assignment })?,
        }
        Ok(())
    }
}
