ghost use Rattle.std.specs.Prelude.{◌≡◌, IfOk};
ghost use Rattle.pcj_translate.specs.Group.{with_triples, with_group, with_condition, closed};
ghost use Rattle.pcj_translate.specs.Grouping.{nothing};

use crate::joining::{both_conditions, filtered, joined_group, joined_triples};
use pcj_algebra::{Pattern, TriplePattern};
use pcj_expr::Expr;
use pcj_term::Memory;
use std::alloc::Global;

/// What a group has so far: its pattern and its condition, where it has them.
#[derive(Drop)]
pub(crate) struct Content {
    pub(crate) pattern: Option<Pattern>,
    pub(crate) condition: Option<Expr>,
}

impl Content {
    /// That of an empty group.
    pub(crate) fn new() -> Content
        ensures { result ≡ nothing }
    {
        Content {
            pattern: None,
            condition: None,
        }
    }

    /// The content with triple patterns behind it.
    pub(crate) fn with_triples(
        self,
        alloc: Global,
        triples: &[TriplePattern],
    ) -> Result<Content, Memory>
        ensures { IfOk result (λ after. after ≡ with_triples self triples.now) }
    {
        let Content { pattern, condition } = self;
        let pattern = joined_triples(alloc, pattern, triples)?;
        Ok(Content { pattern, condition })
    }

    /// The content with a group behind it.
    pub(crate) fn with_group(self, alloc: Global, group: Option<Pattern>) -> Result<Content, Memory>
        ensures { IfOk result (λ after. after ≡ with_group self group) }
    {
        let Content { pattern, condition } = self;
        let pattern = joined_group(alloc, pattern, group)?;
        Ok(Content { pattern, condition })
    }

    /// The content with one condition more.
    pub(crate) fn with_condition(self, alloc: Global, next: Expr) -> Result<Content, Memory>
        ensures { IfOk result (λ after. after ≡ with_condition self next) }
    {
        let Content { pattern, condition } = self;
        let condition = both_conditions(alloc, condition, next)?;
        Ok(Content { pattern, condition })
    }

    /// The pattern of the group, its condition around it.
    pub(crate) fn closed(self, alloc: Global) -> Result<Option<Pattern>, Memory>
        ensures { IfOk result (λ pattern. pattern ≡ closed self) }
    {
        let Content { pattern, condition } = self;
        filtered(alloc, condition, pattern)
    }
}
