ghost use Rattle.std.specs.Prelude.{◌≡◌, true};
ghost use Rattle.directory.specs.Directory.{view_of};
ghost use Rattle.directory.specs.Sound.{sound};

use crate::rows::Row;

mod arriving;
mod making;
mod questions;
mod serving;
mod taking_up;

// A row that is sound. It arises fresh, by loading, by steps, or from a row after a check.
#[derive(Clone, Copy)]
pub struct Record {
    row: Row,
    ghost ok: { sound (view_of row) ≡ true },
}
