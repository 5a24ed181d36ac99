// How a request is served: whom the directory asks, and how the request ends.
ghost use Rattle.std.specs.Prelude.{◌≡◌, ◌≤◌, length};
ghost use Rattle.directory.specs.Arrivals.{with_data, with_purged};
ghost use Rattle.directory.specs.Lists.{items_of};
ghost use Rattle.directory.specs.Serving.{rule_of, ask_by, ask_of_listed, awaited_for, awaits_any, data_reply, reply_of, leaves};

use crate::lists::{CacheList, ShortList};
use crate::rows::{Rule, Served};
use messages::assignments::Assignment;
use messages::kinds::{Ask, Demand, Reply};

fn rule_of(demand: Demand, on_list: bool) -> Rule
    ensures { result ≡ rule_of demand on_list }
{
    match demand {
        Demand::GetSharedData => Rule::Sharing,
        Demand::GetExclusiveData | Demand::GetExclusiveDataIfAny | Demand::GetRemovedData =>
            Rule::Fetching,
        Demand::Exclude | Demand::ExcludeIfAny | Demand::PurgeOthers => {
            if on_list {
                Rule::Clearing
            } else {
                Rule::Fetching
            }
        }
        Demand::PurgeAndExclude | Demand::PurgeAll => Rule::Clearing,
    }
}

fn ask_by(rule: Rule, is_owner: bool, data_came: bool) -> Option<Ask>
    ensures { result ≡ ask_by rule is_owner data_came }
{
    match rule {
        Rule::Sharing => (is_owner && !data_came).then_some(Ask::SendData),
        Rule::Fetching if is_owner => Some(Ask::SendDataAndInvalidate),
        Rule::Fetching | Rule::Clearing => Some(Ask::Invalidate),
    }
}

fn data_reply(found: Option<Assignment>) -> Reply
    ensures { result ≡ data_reply found }
{
    found.map_or(Reply::NoDataFound, Reply::DataFound)
}

impl Served {
    // What a listed zone is still awaited for.
    fn ask_of_listed(self, zone: u8) -> Option<Ask>
        ensures { result ≡ ask_of_listed self zone }
    {
        if zone == self.zone {
            return None;
        }
        ask_by(
            rule_of(self.demand, self.was_listed),
            zone == self.owner,
            self.found.is_some(),
        )
    }

    // What a zone is still awaited for.
    pub(crate) fn awaited_for(self, list: CacheList, zone: u8) -> Option<Ask>
        ensures { result ≡ awaited_for self (items_of list) zone }
    {
        if list.contains(zone) {
            self.ask_of_listed(zone)
        } else {
            None
        }
    }

    // Whether some zone of the list is still awaited.
    pub(crate) fn awaits_any(self, list: CacheList) -> bool
        ensures { result ≡ awaits_any self (items_of list) }
    {
        list.as_slice()
            .iter()
            .any(|zone| self.ask_of_listed(*zone).is_some())
    }

    pub(crate) fn with_data(self, found: Assignment) -> Served
        ensures { result ≡ with_data self found }
    {
        Served {
            found: Some(found),
            ..self
        }
    }

    pub(crate) fn with_purged(self, zone: u8) -> Served
        ensures { result ≡ with_purged self zone }
    {
        Served {
            owner_purged: self.owner_purged || zone == self.owner,
            ..self
        }
    }

    pub(crate) fn reply(self) -> Reply
        ensures { result ≡ reply_of self }
    {
        match self.demand {
            Demand::GetSharedData
            | Demand::GetExclusiveData
            | Demand::GetExclusiveDataIfAny
            | Demand::GetRemovedData => data_reply(self.found),
            Demand::Exclude | Demand::ExcludeIfAny | Demand::PurgeOthers => {
                if self.was_listed {
                    Reply::ExclusionMade
                } else {
                    data_reply(self.found)
                }
            }
            Demand::PurgeAndExclude => Reply::ExclusionMade,
            Demand::PurgeAll => {
                if self.was_listed || self.owner_purged {
                    Reply::ExclusionMade
                } else {
                    Reply::NoDataFound
                }
            }
        }
    }

    // The cache list that the request leaves when it ends with this reply.
    pub(crate) fn list_left(self, reply: Reply, list: CacheList) -> CacheList
        requires { length (leaves self.demand reply self.zone (items_of list)) ≤ 8 }
        ensures { items_of result ≡ leaves self.demand reply self.zone (items_of list) }
    {
        match (self.demand, reply) {
            (Demand::GetSharedData, Reply::DataFound(_)) => list.push_front(self.zone),
            (Demand::GetExclusiveData | Demand::Exclude | Demand::PurgeAndExclude, _) =>
                ShortList::alone(self.zone),
            (
                Demand::GetExclusiveDataIfAny | Demand::ExcludeIfAny,
                Reply::DataFound(_) | Reply::ExclusionMade,
            ) => ShortList::alone(self.zone),
            _ => ShortList::empty(0),
        }
    }
}
