ghost use Rattle.std.specs.Prelude.{◌≡◌, ◌∷◌, true, false, IfOk, OnOk, IfSome, IfNone};
ghost use Rattle.pcj_grammar.specs.declared.terminal.Terminal.TheVariants as t;
ghost use Rattle.pcj_translate.specs.Adding.{behind_one};
ghost use Rattle.pcj_sparql.specs.Heading.{front, begins_var, begins_distinct, behind_distinct, behind_where, begins_prefix, declared_at, behind_declared, begins_item, item_at, behind_item, aggregate_at, behind_aggregate, AddsKeys, AddsItems, AddsDeclared, ReadsKeys};

use crate::declared::Declared;
use crate::said::Said;
use pcj_grammar::{Lexeme, Terminal};
use pcj_term::{Items, Memory};
use std::alloc::Global;

/// The tokens around the group of a query that are still to be read.
#[derive(Drop)]
pub(crate) struct Heading<'t> {
    pub(crate) rest: &'t [Lexeme],
}

impl<'t> Heading<'t> {
    /// Takes the token at the front: a word where there is none.
    pub(crate) fn token(&mut self) -> Lexeme
        ensures token { result ≡ front self.old.rest.now }
        ensures rest { self.new.rest.now ≡ behind_one self.old.rest.now }
    {
        match self.rest {
            [lexeme, rest @ ..] => {
                self.rest = rest;
                *lexeme
            }
            [] => Lexeme {
                terminal: Terminal::Word,
                at: 0,
                end: 0,
            },
        }
    }

    /// Goes behind the first token.
    fn skip(&mut self)
        ensures { self.new.rest.now ≡ behind_one self.old.rest.now }
    {
        if let [_, rest @ ..] = self.rest {
            self.rest = rest;
        }
    }

    /// Takes a declaration of a prefix, where one stands at the front.
    fn declaration(&mut self) -> Option<Declared>
        ensures some { IfSome result (λ declared. (begins_prefix self.old.rest.now ≡ true) × (declared ≡ declared_at self.old.rest.now) × (self.new.rest.now ≡ behind_declared self.old.rest.now)) }
        ensures none { IfNone result ((begins_prefix self.old.rest.now ≡ false) × (self.new.rest.now ≡ self.old.rest.now)) }
    {
        match self.rest {
            [lexeme, rest @ ..] if matches!(lexeme.terminal, Terminal::Prefix) => {
                self.rest = rest;
                let namespace = self.token();
                let iri = self.token();
                Some(Declared { namespace, iri })
            }
            _ => None,
        }
    }

    /// Takes the declarations at the front, and adds them.
    pub(crate) fn declarations(&mut self, found: &mut Items<Declared>) -> Result<(), Memory>
        ensures { OnOk result (AddsDeclared self.old.rest.now self.new.rest.now found.old found.new) }
    {
        while let Some(declared) = self.declaration() {
            found.push(declared)?;
        }
        Ok(())
    }

    /// Takes `DISTINCT`, where it stands at the front, and says whether it does.
    pub(crate) fn distinct(&mut self) -> bool
        ensures found { result ≡ begins_distinct self.old.rest.now }
        ensures rest { self.new.rest.now ≡ behind_distinct self.old.rest.now }
    {
        match self.rest {
            [lexeme, rest @ ..] if matches!(lexeme.terminal, Terminal::Distinct) => {
                self.rest = rest;
                true
            }
            _ => false,
        }
    }

    /// Takes `WHERE`, where it stands at the front.
    pub(crate) fn where_word(&mut self)
        ensures { self.new.rest.now ≡ behind_where self.old.rest.now }
    {
        match self.rest {
            [lexeme, rest @ ..] if matches!(lexeme.terminal, Terminal::Where) => self.rest = rest,
            _ => {}
        }
    }

    /// Takes an aggregate behind its first parenthesis.
    fn aggregate(&mut self) -> Said
        ensures said { result ≡ aggregate_at self.old.rest.now }
        ensures rest { self.new.rest.now ≡ behind_aggregate self.old.rest.now }
    {
        let function = self.token();
        self.skip();
        let distinct = self.distinct();
        let argument = self.token();
        self.skip();
        self.skip();
        let name = self.token();
        self.skip();
        Said::Aggregate {
            function: function.terminal,
            distinct,
            argument,
            name,
        }
    }

    /// Takes an item of SELECT, where one stands at the front.
    fn item(&mut self) -> Option<Said>
        ensures some { IfSome result (λ said. (begins_item self.old.rest.now ≡ true) × (said ≡ item_at self.old.rest.now) × (self.new.rest.now ≡ behind_item self.old.rest.now)) }
        ensures none { IfNone result ((begins_item self.old.rest.now ≡ false) × (self.new.rest.now ≡ self.old.rest.now)) }
    {
        let [lexeme, rest @ ..] = self.rest else {
            return None;
        };
        match lexeme.terminal {
            Terminal::Var => {
                self.rest = rest;
                Some(Said::Plain(*lexeme))
            }
            Terminal::OpenParen => {
                self.rest = rest;
                Some(self.aggregate())
            }
            _ => None,
        }
    }

    /// Takes the items of SELECT at the front, and adds them.
    pub(crate) fn items(&mut self, found: &mut Items<Said>) -> Result<(), Memory>
        ensures { OnOk result (AddsItems self.old.rest.now self.new.rest.now found.old found.new) }
    {
        while let Some(said) = self.item() {
            found.push(said)?;
        }
        Ok(())
    }

    /// Takes a variable, where one stands at the front.
    fn variable(&mut self) -> Option<Lexeme>
        ensures some { IfSome result (λ l. (self.old.rest.now ≡ l ∷ self.new.rest.now) × (l.terminal ≡ t.Var)) }
        ensures none { IfNone result ((begins_var self.old.rest.now ≡ false) × (self.new.rest.now ≡ self.old.rest.now)) }
    {
        match self.rest {
            [lexeme, rest @ ..] if matches!(lexeme.terminal, Terminal::Var) => {
                self.rest = rest;
                Some(*lexeme)
            }
            _ => None,
        }
    }

    /// Takes the variables at the front, and adds them.
    fn variables(&mut self, found: &mut Items<Lexeme>) -> Result<(), Memory>
        ensures { OnOk result (AddsKeys self.old.rest.now self.new.rest.now found.old found.new) }
    {
        while let Some(lexeme) = self.variable() {
            found.push(lexeme)?;
        }
        Ok(())
    }

    /// Takes `GROUP BY` and its variables, where they stand at the front.
    pub(crate) fn keys(&mut self, alloc: Global) -> Result<Items<Lexeme>, Memory>
        ensures { IfOk result (ReadsKeys self.old.rest.now) }
    {
        let mut keys = Items::new(alloc);
        self.skip();
        self.skip();
        self.variables(&mut keys)?;
        Ok(keys)
    }
}
