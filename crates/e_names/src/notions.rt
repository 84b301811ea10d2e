//! The defined notions that are known.
ghost use Rattle.std.specs.Prelude.{◌≡◌, ◌++◌, ◌∷◌, [], OnOk, OnErr, length, false};
ghost use Rattle.std.specs.Option.{option_map};
ghost use Rattle.e_names.specs.Titled.{titled_notion, defines, notion_of};

use e_text::Title;
use e_theorem::Notion;
use indexmap::IndexSet;
use std::alloc::{AllocError, Global};
use std::marker::Model;
use std::mem;

/// Titles and notions of definitions, in order. No two titles are equal.
#[derive(Drop)]
pub struct Notions {
    titles: IndexSet<Title>,
    notions: Vec<Notion>,
}

impl Model for Notions {
    ghost use Rattle.std.specs.Prelude.{◌≡◌, List, length};
    ghost use Rattle.e_names.specs.Titled.{Titled, side_by_side};

    ghost Value = { List Titled };

    ghost view = { λ k. side_by_side k.titles.keys k.notions.items };

    ghost invariant = { λ k. length k.titles.keys ≡ length k.notions.items };
}

impl Notions {
    /// No definitions.
    pub fn new(alloc: Global) -> Self
        ensures { result ≡ [] }
    {
        Notions {
            titles: IndexSet::new(alloc),
            notions: Vec::new(alloc),
        }
    }

    /// How many there are.
    #[tactic(auto, using(crate::proofs::titles::NotionsBeside::length_beside))]
    pub fn len(&self) -> usize
        ensures { result ≡ length self.now }
    {
        self.notions.len()
    }

    /// Puts a notion last. When memory runs out all is as before.
    pub fn add(&mut self, title: Title, notion: Notion) -> Result<(), AllocError>
        requires new { defines self.old title ≡ false }
        ensures ok { OnOk result (self.new ≡ self.old ++ titled_notion title notion ∷ []) }
        ensures err { OnErr result (self.new ≡ self.old) }
    {
        if let Err(error) = self.titles.reserve(1) {
            mem::drop(notion);
            return Err(error);
        }
        self.notions.push(notion)?;
        self.titles.insert(title).unwrap();
        Ok(())
    }

    /// Whether a definition has this title.
    #[tactic(auto, using(crate::proofs::titles::NotionsBeside::titles_of))]
    pub fn defines(&self, title: Title) -> bool
        ensures { result ≡ defines self.now title }
    {
        self.titles.contains(&title)
    }

    /// The notion with this title.
    pub fn get(&self, title: Title) -> Option<&Notion>
        ensures { option_map (λ n. n.now) result ≡ notion_of self.now title }
    {
        match self.titles.get_index_of(&title) {
            Some(place) => Some(&self.notions[place]),
            None => None,
        }
    }
}
