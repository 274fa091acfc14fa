//! How many streams have a frame due.

ghost use Rattle.std.specs.Prelude.{◌≡◌};
ghost use Rattle.ymx_model.specs.session.Tables.{any_due, due_count};

use crate::Table;

impl Table {
    /// How many streams have a frame due. No record is looked at.
    pub fn due_count(&self) -> usize
        ensures { result ≡ due_count self.now }
    {
        self.due.count()
    }

    /// Whether any stream has a frame due. No record is looked at.
    pub fn any_due(&self) -> bool
        ensures { result ≡ any_due self.now.window self.now.entries }
    {
        self.due.count() != 0
    }
}
