use order_log::{Fact, LogIdentity};
use std::marker::{Brand, PhantomData};

/// The log of one database: its setting goes with its identity.
pub trait LogSetting: LogIdentity {
    ghost use Rattle.log_model.specs.Log.{Setting};

    /// The tables, what the database begins with, and the window.
    ghost setting: { Setting };
}

impl LogSetting for Brand {
    ghost use Rattle.std.specs.Prelude.{[]};
    ghost use Rattle.std.specs.FinMap.{empty};

    ghost setting = { record {
      tables = empty;
      beginning = record { rows = empty; procedures = []; requests = [] };
      window = 0;
    } };
}

/// The fact of the entries of a database's log. A call's entry has its run, and writes rows of the schema's tables. An
/// addition has a name and a program that was accepted for the schema.
#[derive(Drop)]
pub struct OrderedEntries<J: LogSetting> {
    of: PhantomData<J>,
}

impl<J: LogSetting> Fact for OrderedEntries<J> {
    ghost use Rattle.locked_replica.specs.Ordered.{IsOrdered};

    ghost shows = { λ before e. IsOrdered J.setting before e };
}
