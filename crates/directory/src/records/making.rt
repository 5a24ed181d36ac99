// How a record begins.
ghost use Rattle.std.specs.Prelude.{◌≡◌, [], if◌then◌else◌, Some, None};
ghost use Rattle.directory.specs.Directory.{directory, view_of};
ghost use Rattle.directory.specs.Lists.{items_of};
ghost use Rattle.directory.specs.Records.{row_in, fresh, loaded_at, viewed};
ghost use Rattle.directory.specs.Sound.{sound};

use crate::lists::{CacheList, ShortList};
use crate::records::Record;
use crate::rows::{Row, Waiting};
use messages::kinds::Demand;
use messages::refusals::Refusal;

// The row of a place at which nothing waits.
fn idle_row(list: CacheList) -> Row
    ensures { view_of result ≡ directory (items_of list) [] None }
{
    let spare = Waiting {
        zone: 0,
        demand: Demand::GetSharedData,
    };
    Row {
        list,
        waiting: ShortList::empty(spare),
        served: None,
    }
}

impl Record {
    // Nobody has a copy, and nothing waits.
    pub fn fresh() -> Record
        ensures { view_of result.row ≡ fresh }
    {
        Record {
            row: idle_row(ShortList::empty(0)),
        }
    }

    // One zone has the only copy.
    pub fn loaded(zone: u8) -> Result<Record, Refusal>
        ensures { viewed result ≡ loaded_at zone }
    {
        if zone >= 8 {
            return Err(Refusal::Misplaced);
        }
        Ok(Record {
            row: idle_row(ShortList::alone(zone)),
        })
    }

    // The record of a row, if the row is sound.
    pub fn from_row(row: Row) -> Option<Record>
        ensures { row_in result ≡ (if sound (view_of row) then Some row else None) }
    {
        if row.is_sound() {
            Some(Record { row })
        } else {
            None
        }
    }

    // The plain row, as a table keeps it.
    pub fn row(self) -> Row
        ensures { result ≡ self.row }
    {
        self.row
    }
}
