ghost use Rattle.std.specs.Prelude.{◌≡◌};
ghost use Rattle.pcj_groups.specs.Finding.{no_faults, lower_faults};

use pcj_translate::lower_of;

/// The lowest place of each fault of a group and the groups inside it, in bytes of the text.
#[derive(Clone, Copy)]
pub struct GroupFaults {
    /// The `{` of a group without triple pattern and without group inside.
    pub bare: Option<usize>,
    /// A variable of a FILTER that no triple pattern of its group, or of a group inside that, has.
    pub unknown: Option<usize>,
    /// The word UNION between groups with different variables.
    pub uneven: Option<usize>,
}

impl GroupFaults {
    pub(crate) fn none() -> GroupFaults
        ensures { result ≡ no_faults }
    {
        GroupFaults {
            bare: None,
            unknown: None,
            uneven: None,
        }
    }

    /// The lower places of two groups.
    pub(crate) fn lower_of(self, other: GroupFaults) -> GroupFaults
        ensures { result ≡ lower_faults self other }
    {
        GroupFaults {
            bare: lower_of(self.bare, other.bare),
            unknown: lower_of(self.unknown, other.unknown),
            uneven: lower_of(self.uneven, other.uneven),
        }
    }
}
