//! What is known of a book so far: its theorems and its definitions.
ghost use Rattle.std.specs.Prelude.{◌≡◌, ◌++◌, ◌∷◌, [], OnOk, OnErr, false};
ghost use Rattle.std.specs.Option.{option_map};
ghost use Rattle.e_names.specs.TitledStatements.{titled_statement};
ghost use Rattle.e_names.specs.Taken.{nothing_known, is_taken};
ghost use Rattle.e_names.specs.Titled.{titled_notion, notion_of};

use crate::notions::Notions;
use crate::theorems::Theorems;
use e_text::Title;
use e_theorem::{Notion, Statement};
use std::alloc::{AllocError, Global};

/// The theorems and the definitions, each in order. No two titles are equal.
#[derive(Drop)]
pub struct Known {
    pub theorems: Theorems,
    pub notions: Notions,
}

impl Known {
    /// Nothing is known.
    pub fn new(alloc: Global) -> Self
        ensures { result ≡ nothing_known }
    {
        Known {
            theorems: Theorems::new(alloc),
            notions: Notions::new(alloc),
        }
    }

    /// Whether a theorem or a definition has this title.
    pub fn is_taken(&self, title: Title) -> bool
        ensures { result ≡ is_taken self.now title }
    {
        self.theorems.is_known(title) || self.notions.defines(title)
    }

    /// Puts a theorem last. When memory runs out all is as before.
    pub fn add(&mut self, title: Title, statement: Statement) -> Result<(), AllocError>
        requires new { is_taken self.old title ≡ false }
        ensures ok { OnOk result (self.new
            ≡ record self.old { theorems = self.old.theorems ++ titled_statement title statement ∷ [] }) }
        ensures err { OnErr result (self.new ≡ self.old) }
    {
        self.theorems.add(title, statement)
    }

    /// Puts a definition last. When memory runs out all is as before.
    pub fn add_notion(&mut self, title: Title, notion: Notion) -> Result<(), AllocError>
        requires new { is_taken self.old title ≡ false }
        ensures ok { OnOk result (self.new ≡ record self.old {
          notions = self.old.notions ++ titled_notion title notion ∷ [];
        }) }
        ensures err { OnErr result (self.new ≡ self.old) }
    {
        self.notions.add(title, notion)
    }

    /// The notion with this title; nothing where no definition has it.
    pub fn notion(&self, title: Title) -> Option<&Notion>
        ensures { option_map (λ n. n.now) result ≡ notion_of self.now.notions title }
    {
        self.notions.get(title)
    }
}
