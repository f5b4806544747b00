ghost use Rattle.std.specs.Prelude.{◌≡◌, [], ◌∷◌};
ghost use Rattle.pcj_encode.specs.Tag.{letter_of, tagged, tag_of};

/// What kind a row is of, by the first part of its key.
#[derive(Clone, Copy)]
pub(crate) enum Tag {
    Clock,
    Spo,
    Pos,
    Osp,
    Node,
    Group,
    Member,
    Registration,
    Name,
    Pattern,
    Task,
    Export,
}

impl Tag {
    /// The letter that the kind's keys begin with.
    pub(crate) fn letter(self) -> u8
        ensures { result ∷ [] ≡ letter_of self }
    {
        match self {
            Tag::Clock => b'z',
            Tag::Spo => b's',
            Tag::Pos => b'p',
            Tag::Osp => b'o',
            Tag::Node => b'r',
            Tag::Group => b'g',
            Tag::Member => b'm',
            Tag::Registration => b'q',
            Tag::Name => b'a',
            Tag::Pattern => b't',
            Tag::Task => b'n',
            Tag::Export => b'x',
        }
    }

    /// The kind that a key's first part names.
    pub(crate) fn read(part: &[u8]) -> Option<Tag>
        ensures { result ≡ tag_of part.now }
    {
        match part {
            [letter] => Tag::of(*letter),
            _ => None,
        }
    }

    /// The kind that has this letter.
    fn of(letter: u8) -> Option<Tag>
        ensures { result ≡ tagged letter }
    {
        match letter {
            b'z' => Some(Tag::Clock),
            b's' => Some(Tag::Spo),
            b'p' => Some(Tag::Pos),
            b'o' => Some(Tag::Osp),
            b'r' => Some(Tag::Node),
            b'g' => Some(Tag::Group),
            b'm' => Some(Tag::Member),
            b'q' => Some(Tag::Registration),
            b'a' => Some(Tag::Name),
            b't' => Some(Tag::Pattern),
            b'n' => Some(Tag::Task),
            b'x' => Some(Tag::Export),
            _ => None,
        }
    }
}
