ghost use Rattle.std.specs.Prelude.{◌≡◌, None};

use crate::client::Client;
use pcj_oracle::Oracle;
use pcj_recover::Recovery;
use pcj_snapshot::SnapRead;
use pcj_txn::Txn;
use std::alloc::Global;

/// Who steps over the table: an oracle, two transactions, a read, the recovery of the lock that was met last by one of
/// these, and two actors.
#[derive(Drop)]
pub(crate) struct Scene {
    pub(crate) alloc: Global,
    pub(crate) oracle: Oracle,
    pub(crate) first: Option<Txn>,
    pub(crate) second: Option<Txn>,
    pub(crate) read: Option<SnapRead>,
    pub(crate) recovery: Option<Recovery>,
    pub(crate) actor_a: Option<Client>,
    pub(crate) actor_b: Option<Client>,
}

impl Scene {
    /// An oracle alone, which isn't attached to a table.
    pub(crate) fn new(alloc: Global) -> Scene
        ensures { result.oracle ≡ None }
    {
        Scene {
            alloc,
            oracle: Oracle::new(alloc),
            first: None,
            second: None,
            read: None,
            recovery: None,
            actor_a: None,
            actor_b: None,
        }
    }
}
