ghost use Rattle.std.specs.Prelude.{◌≡◌, map, length};
ghost use Rattle.directory.specs.Directory.{view_of};
ghost use Rattle.pool.specs.Rows.{SoundRows};

use calls::slots::{Counts, Slot};
use directory::rows::Row;

pub(crate) mod steps;

// The lines of eight zones for 32 places each, the directory's row for each place, and the counts of each zone.
// A row is as its record left it, so that the check of a row never fails: rows and no records, since a record is made of its row after a check.
// Arrays: there is no heap, and no call copies a table.
#[derive(Drop)]
pub struct Tables {
    pub(crate) slots: [Slot; 256],
    pub(crate) rows: [Row; 32],
    pub(crate) counts: [Counts; 8],
    ghost many_slots: { length slots ≡ 256 },
    ghost many_rows: { length rows ≡ 32 },
    ghost sound_rows: { SoundRows (map view_of rows) },
}
