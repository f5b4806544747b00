ghost use Rattle.std.specs.Prelude.{◌≡◌, [], ◌∷◌, ◌++◌, IfOk};
ghost use Rattle.pcj_term.specs.Term.{printed};
ghost use Rattle.pcj_encode.specs.Name.{registration_part, node_part};
ghost use Rattle.pcj_encode.specs.Tag.{letter_of, task_letter_of};

use crate::tag::Tag;
use crate::task_tag::TaskTag;
use pcj_term::{Bytes, Items, Memory, Term, TryClone, print_term};
use std::alloc::Global;
use std::marker::Model;

/// The parts of a key, as they are put together.
#[derive(Drop)]
pub(crate) struct Parts {
    parts: Items<Bytes>,
    alloc: Global,
}

impl Model for Parts {
    ghost use Rattle.std.specs.Prelude.{List, ℕ};

    ghost Value = { List (List ℕ) };

    ghost view = { λ p. p.parts };
}

impl Parts {
    /// The tag of a row alone.
    pub(crate) fn of(alloc: Global, tag: Tag) -> Result<Parts, Memory>
        ensures { IfOk result (λ parts. parts ≡ letter_of tag ∷ []) }
    {
        let parts = Items::new(alloc);
        Parts { parts, alloc }.bytes(&[tag.letter()])
    }

    pub(crate) fn task(self, tag: TaskTag) -> Result<Parts, Memory>
        ensures { IfOk result (λ parts. parts ≡ self ++ task_letter_of tag ∷ []) }
    {
        self.bytes(&[tag.letter()])
    }

    pub(crate) fn registration(self, registration: u64) -> Result<Parts, Memory>
        ensures { IfOk result (λ parts. parts ≡ self ++ registration_part registration ∷ []) }
    {
        self.bytes(&registration.to_be_bytes())
    }

    pub(crate) fn node(self, node: u16) -> Result<Parts, Memory>
        ensures { IfOk result (λ parts. parts ≡ self ++ node_part node ∷ []) }
    {
        self.bytes(&node.to_be_bytes())
    }

    pub(crate) fn term(self, term: &Term) -> Result<Parts, Memory>
        ensures { IfOk result (λ parts. parts ≡ self ++ printed term.now ∷ []) }
    {
        let part = print_term(self.alloc, term)?;
        self.part(part)
    }

    pub(crate) fn bytes(self, bytes: &[u8]) -> Result<Parts, Memory>
        ensures { IfOk result (λ parts. parts ≡ self ++ bytes.now ∷ []) }
    {
        let part = Bytes::from_slice(self.alloc, bytes)?;
        self.part(part)
    }

    pub(crate) fn cells(self, cells: &[Bytes]) -> Result<Parts, Memory>
        ensures { IfOk result (λ parts. parts ≡ self ++ cells.now) }
    {
        let Parts { mut parts, alloc } = self;
        for cell in cells {
            parts.push(cell.try_clone(alloc)?)?;
        }
        Ok(Parts { parts, alloc })
    }

    fn part(self, part: Bytes) -> Result<Parts, Memory>
        ensures { IfOk result (λ parts. parts ≡ self ++ part ∷ []) }
    {
        let Parts { mut parts, alloc } = self;
        parts.push(part)?;
        Ok(Parts { parts, alloc })
    }

    /// All the parts.
    pub(crate) fn as_slice(&self) -> &[Bytes]
        ensures { result.now ≡ self.now }
    {
        self.parts.as_slice()
    }
}
