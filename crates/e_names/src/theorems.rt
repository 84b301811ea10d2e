//! The theorems that are known.
ghost use Rattle.std.specs.Prelude.{◌≡◌, ◌++◌, ◌∷◌, [], ◌<◌, ◌≤◌, ◌^◌, OnOk};
ghost use Rattle.std.specs.Prelude.{OnErr, length, slice_get, Some, false};
ghost use Rattle.e_names.specs.TitledStatements.{titled_statement, titles, statements};
ghost use Rattle.e_names.specs.TitledStatements.{is_known, place_in, theorem_of};
ghost use Rattle.e_theorem.specs.Statements.{as_view};

use e_text::Title;
use e_theorem::Statement;
use indexmap::IndexSet;
use std::alloc::{AllocError, Global};
use std::marker::Model;
use std::mem;

/// Titles and statements of theorems, in order. No two titles are equal.
#[derive(Drop)]
pub struct Theorems {
    titles: IndexSet<Title>,
    statements: Vec<Statement>,
}

impl Model for Theorems {
    ghost use Rattle.std.specs.Prelude.{◌≡◌, List, length};
    ghost use Rattle.e_names.specs.TitledStatements.{TitledStatement, side_by_side};

    ghost Value = { List TitledStatement };

    ghost view = { λ k. side_by_side k.titles.keys k.statements.items };

    ghost invariant = { λ k. length k.titles.keys ≡ length k.statements.items };
}

impl Theorems {
    /// No theorems.
    pub fn new(alloc: Global) -> Self
        ensures { result ≡ [] }
    {
        Theorems {
            titles: IndexSet::new(alloc),
            statements: Vec::new(alloc),
        }
    }

    /// How many there are.
    #[tactic(auto, using(crate::proofs::titles::SideBySide::length_side_by_side))]
    pub fn len(&self) -> usize
        ensures { result ≡ length self.now }
    {
        self.statements.len()
    }

    /// Puts a theorem last. When memory runs out all is as before.
    pub fn add(&mut self, title: Title, statement: Statement) -> Result<(), AllocError>
        requires new { is_known self.old title ≡ false }
        ensures ok { OnOk result (self.new ≡ self.old ++ titled_statement title statement ∷ []) }
        ensures err { OnErr result (self.new ≡ self.old) }
    {
        if let Err(error) = self.titles.reserve(1) {
            mem::drop(statement);
            return Err(error);
        }
        self.statements.push(statement)?;
        self.titles.insert(title).unwrap();
        Ok(())
    }

    /// Whether a theorem has this title.
    #[tactic(auto, using(crate::proofs::titles::SideBySide::titles_of))]
    pub fn is_known(&self, title: Title) -> bool
        ensures { result ≡ is_known self.now title }
    {
        self.titles.contains(&title)
    }

    /// Where the theorem with this title is.
    pub fn place(&self, title: Title) -> Option<usize>
        ensures { result ≡ place_in self.now title }
    {
        self.titles.get_index_of(&title)
    }

    /// The title at a place.
    #[tactic(auto, using(crate::proofs::titles::SideBySide::titles_of, crate::proofs::titles::SideBySide::length_side_by_side))]
    pub fn title(&self, place: usize) -> Title
        requires { place < length self.now }
        ensures { slice_get (titles self.now) place ≡ Some result }
    {
        *self.titles.get_index(place).unwrap()
    }

    /// What the theorem at a place states.
    #[tactic(auto, using(crate::proofs::titles::SideBySide::statement_at))]
    pub fn statement(&self, place: usize) -> &Statement
        requires { place < length self.now }
        ensures { as_view result.now ≡ theorem_of self.now place }
    {
        &self.statements[place]
    }

    /// The statements, in order.
    #[tactic(auto, using(crate::proofs::titles::SideBySide::statements_of))]
    pub fn statements(&self) -> &[Statement]
        ensures { result.now ≡ statements self.now }
    {
        &self.statements
    }
}
