ghost use Rattle.std.specs.Prelude.{◌≡◌, [], ◌∷◌};
ghost use Rattle.pcj_encode.specs.Tag.{task_letter_of, task_tagged, task_tag_of};

/// What kind a task is of, by the second part of its row's key.
#[derive(Clone, Copy)]
pub(crate) enum TaskTag {
    Triple,
    Backfill,
    Row,
    Export,
}

impl TaskTag {
    /// The letter that stands for the kind in a key.
    pub(crate) fn letter(self) -> u8
        ensures { result ∷ [] ≡ task_letter_of self }
    {
        match self {
            TaskTag::Triple => b't',
            TaskTag::Backfill => b'b',
            TaskTag::Row => b'r',
            TaskTag::Export => b'e',
        }
    }

    /// The kind that the second part of a key names.
    pub(crate) fn read(part: &[u8]) -> Option<TaskTag>
        ensures { result ≡ task_tag_of part.now }
    {
        match part {
            [letter] => TaskTag::of(*letter),
            _ => None,
        }
    }

    /// The kind that has this letter.
    fn of(letter: u8) -> Option<TaskTag>
        ensures { result ≡ task_tagged letter }
    {
        match letter {
            b't' => Some(TaskTag::Triple),
            b'b' => Some(TaskTag::Backfill),
            b'r' => Some(TaskTag::Row),
            b'e' => Some(TaskTag::Export),
            _ => None,
        }
    }
}
