ghost use Rattle.std.specs.Prelude.{◌≡◌, map};
ghost use Rattle.directory.specs.Directory.{view_of};
ghost use Rattle.transport.specs.Lanes.{all_empty};
ghost use Rattle.pool.specs.Tidy.{TidyRows, TidyLines};

use crate::tables::Tables;
use rules::plan::Plan;
use transport::interface::Transport;

mod opening;
mod stocking;

// A pool before it is opened: each place has what was loaded there, and nothing else.
#[derive(Drop)]
pub struct Loading<T: Transport> {
    pub(crate) plan: Plan,
    pub(crate) transport: T,
    pub(crate) tables: Tables,
    ghost lanes_empty: { T.waiting transport ≡ all_empty },
    ghost tidy_rows: { TidyRows (map view_of tables.rows) },
    ghost tidy_lines: { TidyLines tables.slots (map view_of tables.rows) },
}
