// Questions to a record.
ghost use Rattle.std.specs.Prelude.{◌≡◌, is_some};
ghost use Rattle.directory.specs.Directory.{view_of};
ghost use Rattle.directory.specs.Lists.{first_of};

use crate::records::Record;

impl Record {
    // The first zone of the cache list.
    pub fn owner(self) -> Option<u8>
        ensures { result ≡ first_of (view_of self.row).list }
    {
        self.row.list.first()
    }

    // Whether a request waits to be taken up.
    pub fn has_waiting(self) -> bool
        ensures { result ≡ is_some (first_of (view_of self.row).waiting) }
    {
        self.row.waiting.first().is_some()
    }
}
