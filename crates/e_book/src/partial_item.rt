//! A theorem or a definition while its lines come.
ghost use Rattle.std.specs.Prelude.{◌≡◌, ◌≤◌, ◌+◌, [], None, Some, IfOk, OnOk, IsTrue};
ghost use Rattle.e_line.specs.Reading.{texts, Gives, Moves};
ghost use Rattle.e_line.specs.Limits.{most_expanded};
ghost use Rattle.e_names.specs.Titled.{are_notions};
ghost use Rattle.e_line.specs.Items.{list_raw_line, raw_superpose_line, is_show};
ghost use Rattle.e_names.specs.Scope.{right_count};
ghost use Rattle.e_book.specs.Definitions.{has_notion_title, OfNotion, view_of};
ghost use Rattle.e_book.specs.Steps.{line_may_come, FitsScope};
ghost use Rattle.e_book.specs.inner.Machine.{FitsPartial, is_ready, line_written_out, line_step};
ghost use Rattle.e_book.specs.inner.Machine.{begins_theorem, begins_definition, goes_on};
ghost use Rattle.e_book.specs.inner.Machine.{defines_on, goes_on_with_items};
ghost use Rattle.e_book.specs.inner.Machine.{item_of_partial, notion_of_parser};

use crate::item::Item;
use crate::limits::MAX_NOTIONS;
use crate::parser::{Section, TheoremParser, line_may_come};
use e_line::{
    BookLine, FaultKind, LineError, ListHead, RawItem, RawLine, RawLit, RawSuperpose, What,
    book_line_of, within,
};
use e_literal::Items;
use e_names::{Known, MAX_EXPANDED, fresh, placed_in, put_items};
use e_text::{Name, Title};
use e_theorem::Notion;
use std::alloc::{AllocError, Global};
use std::mem;

/// What has come of a theorem or of a definition.
#[derive(Drop)]
pub struct PartialItem {
    /// Whether it is a definition: what it means is what its parser shows.
    pub defines: bool,
    pub parser: TheoremParser,
    /// How many literals the items of its lines mean, those with the title of a definition.
    pub expanded: usize,
}

/// Whether it begins a theorem with the title of a definition.
fn has_notion_title(known: &Known, raw_line: &RawLine) -> bool
    ensures { result ≡ has_notion_title known.now.notions raw_line.now }
{
    match raw_line {
        RawLine::Theorem(title) => known.notions.defines(*title),
        _ => false,
    }
}

/// A raw line with these literals.
fn list_raw_line(alloc: Global, line: &ListHead, raws: Items<RawLit>) -> Result<RawLine, AllocError>
    ensures { IfOk result (λ f. f ≡ list_raw_line line.now raws) }
{
    match line {
        ListHead::Given => Ok(RawLine::Given(raws)),
        ListHead::Show => Ok(RawLine::Show(raws)),
        ListHead::Claim => Ok(RawLine::Claim(raws)),
        ListHead::Superpose { args, new } => raw_superpose_line(
            alloc,
            args.items(),
            new.items(),
            raws,
        ),
    }
}

/// The raw line of a superposition with these literals.
fn raw_superpose_line(
    alloc: Global,
    args: &[Name],
    new: &[Name],
    shown: Items<RawLit>,
) -> Result<RawLine, AllocError>
    ensures { IfOk result (λ f. f ≡ raw_superpose_line args.now new.now shown) }
{
    let args = Items::new(Vec::from_slice(alloc, args)?);
    let new = Items::new(Vec::from_slice(alloc, new)?);
    Ok(RawLine::Superpose(RawSuperpose { args, new, shown }))
}

/// A line with its items written out, and how many literals they mean.
#[derive(Drop)]
struct Written {
    raw_line: RawLine,
    count: usize,
}

impl PartialItem {
    /// Begins with the words of the first line.
    #[tactic(auto, unfolding(crate::specs::inner::Machine::line_step, crate::specs::inner::Machine::begins))]
    pub(crate) fn begin(
        alloc: Global,
        known: &Known,
        words: &[&[u8]],
    ) -> Result<PartialItem, LineError>
        ensures value { Gives (λ c. c) result (line_step known.now None (texts words.now)) }
        ensures fits { IfOk result (FitsPartial known.now) }
    {
        let line = book_line_of(alloc, words)?;
        let begun = match &line {
            BookLine::Plain(raw_line) => PartialItem::begin_theorem(alloc, known, raw_line),
            BookLine::Define(title) => PartialItem::begin_definition(alloc, known, *title),
            BookLine::Listed(_, _) => Err(LineError::Fault(FaultKind::Malformed)),
        };
        mem::drop(line);
        begun
    }

    #[tactic(auto, unfolding(crate::specs::inner::Machine::begins_theorem))]
    fn begin_theorem(
        alloc: Global,
        known: &Known,
        raw_line: &RawLine,
    ) -> Result<PartialItem, LineError>
        ensures value { Gives (λ c. c) result (begins_theorem known.now raw_line.now) }
        ensures fits { IfOk result (FitsPartial known.now) }
    {
        if has_notion_title(known, raw_line) {
            return Err(LineError::Fault(FaultKind::NameTaken));
        }
        let parser = TheoremParser::begin(alloc, &known.theorems, raw_line)?;
        Ok(PartialItem {
            defines: false,
            parser,
            expanded: 0,
        })
    }

    #[tactic(auto, unfolding(crate::specs::inner::Machine::begins_definition))]
    fn begin_definition(
        alloc: Global,
        known: &Known,
        title: Title,
    ) -> Result<PartialItem, LineError>
        ensures value { Gives (λ c. c) result (begins_definition known.now title) }
        ensures fits { IfOk result (FitsPartial known.now) }
    {
        if known.is_taken(title) {
            return Err(LineError::Fault(FaultKind::NameTaken));
        }
        if known.notions.len() >= MAX_NOTIONS {
            return Err(LineError::Fault(FaultKind::Limit(What::Notions)));
        }
        Ok(PartialItem {
            defines: true,
            parser: TheoremParser::with_title(alloc, title),
            expanded: 0,
        })
    }

    /// Takes the words of the next line. After a fault it is not used again.
    #[tactic(auto, unfolding(crate::specs::inner::Machine::line_step, crate::specs::inner::Machine::step))]
    pub(crate) fn take(
        &mut self,
        alloc: Global,
        known: &Known,
        words: &[&[u8]],
    ) -> Result<(), LineError>
        requires partial_item { FitsPartial known.now self.old }
        requires notions { IsTrue (are_notions known.now.notions) }
        ensures value { Moves result self.new
            (line_step known.now (Some self.old) (texts words.now)) }
        ensures fits { OnOk result (FitsPartial known.now self.new) }
    {
        let line = book_line_of(alloc, words)?;
        let taken = match &line {
            BookLine::Plain(raw_line) => self.go_on(alloc, known, raw_line),
            BookLine::Define(_) => Err(LineError::Fault(FaultKind::Malformed)),
            BookLine::Listed(line, items) => self.go_on_with_items(
                alloc,
                known,
                line,
                items.items(),
            ),
        };
        mem::drop(line);
        taken
    }

    /// A line without items.
    #[tactic(auto, unfolding(crate::specs::inner::Machine::goes_on))]
    fn go_on(&mut self, alloc: Global, known: &Known, raw_line: &RawLine) -> Result<(), LineError>
        requires partial_item { FitsPartial known.now self.old }
        ensures value { Moves result self.new (goes_on known.now self.old raw_line.now) }
        ensures fits { OnOk result (FitsPartial known.now self.new) }
    {
        if self.defines {
            return self.define(alloc, raw_line);
        }
        self.parser.take(alloc, &known.theorems, raw_line)
    }

    /// A line of a definition.
    #[tactic(auto, unfolding(crate::specs::inner::Machine::defines_on))]
    fn define(&mut self, alloc: Global, raw_line: &RawLine) -> Result<(), LineError>
        requires { FitsScope self.old.parser }
        ensures value { Moves result self.new.parser (defines_on self.old.parser raw_line.now) }
        ensures fits { OnOk result (FitsScope self.new.parser) }
        ensures kept { (self.new.defines ≡ self.old.defines)
            × (self.new.expanded ≡ self.old.expanded) }
    {
        match raw_line {
            RawLine::Declare(sort, names) => {
                right_place(line_may_come(self.parser.section, raw_line))?;
                self.parser.on_declare(alloc, *sort, names.items())
            }
            RawLine::Show(raw) => {
                right_place(line_may_come(self.parser.section, raw_line))?;
                self.parser.on_show(alloc, raw.items())
            }
            RawLine::End => {
                right_place(matches!(self.parser.section, Section::Showing))?;
                self.parser.section = Section::Done;
                Ok(())
            }
            _ => Err(LineError::Fault(FaultKind::Malformed)),
        }
    }

    /// A line with items: they are written out, and it is taken; then the limit of the literals
    /// that they mean.
    #[tactic(auto, unfolding(crate::specs::inner::Machine::goes_on_with_items))]
    fn go_on_with_items(
        &mut self,
        alloc: Global,
        known: &Known,
        line: &ListHead,
        items: &[RawItem],
    ) -> Result<(), LineError>
        requires partial_item { FitsPartial known.now self.old }
        requires notions { IsTrue (are_notions known.now.notions) }
        ensures value { Moves result self.new (goes_on_with_items known.now self.old line.now items.now) }
        ensures fits { OnOk result (FitsPartial known.now self.new) }
    {
        right_place(!self.defines || is_show(line))?;
        let Written { raw_line, count } = self.write(alloc, known, line, items)?;
        let taken = self.go_on(alloc, known, &raw_line);
        mem::drop(raw_line);
        taken?;
        within(self.expanded + count, MAX_EXPANDED, What::Expanded)?;
        self.expanded += count;
        Ok(())
    }

    /// The line with its items written out as literals. First it is asked whether the line may come
    /// here, then its names are looked up from left to right.
    fn write(
        &self,
        alloc: Global,
        known: &Known,
        line: &ListHead,
        items: &[RawItem],
    ) -> Result<Written, LineError>
        requires partial_item { FitsPartial known.now self.now }
        requires notions { IsTrue (are_notions known.now.notions) }
        ensures value { Gives (λ w. (w.raw_line, w.count)) result
            (line_written_out known.now.notions self.now.parser line.now items.now) }
        ensures count { IfOk result (λ w. w.count ≤ most_expanded + 1) }
    {
        self.parser.check_head(line)?;
        let names = self.parser.names_there();
        let mut raws = Items::empty(alloc);
        let count = put_items(alloc, &known.notions, names, items, 0, &mut raws)?;
        let raw_line = list_raw_line(alloc, line, raws)?;
        Ok(Written { raw_line, count })
    }

    /// What the lines make, where the last has come.
    pub(crate) fn into_item(self, alloc: Global) -> Item
        ensures { view_of result ≡ item_of_partial self }
    {
        let PartialItem {
            defines,
            parser,
            ..
        } = self;
        if defines {
            return into_definition(alloc, parser);
        }
        Item::Theorem(parser.into_theorem(alloc))
    }
}

/// The definition that the lines make.
fn into_definition(alloc: Global, mut parser: TheoremParser) -> Item
    ensures { view_of result ≡ OfNotion (notion_of_parser parser) }
{
    let title = parser.title;
    let declared = mem::replace(&mut parser.declared, Items::empty(alloc));
    let means = mem::replace(&mut parser.shown, Items::empty(alloc));
    mem::drop(parser);
    Item::Notion(title, Notion { declared, means })
}

/// Whether a line that takes literals may come at a place.
fn list_may_come(section: Section, line: &ListHead) -> bool
    ensures { result ≡ line_may_come section (list_raw_line line.now []) }
{
    match line {
        ListHead::Given => matches!(section, Section::Declaring | Section::Giving),
        ListHead::Show => matches!(
            section,
            Section::Declaring | Section::Giving | Section::Making | Section::Showing
        ),
        ListHead::Claim => matches!(section, Section::Proving),
        ListHead::Superpose { .. } => matches!(section, Section::Proving),
    }
}

/// Whether it is a line of shown literals, the only one with items that a definition may have.
fn is_show(line: &ListHead) -> bool
    ensures { result ≡ is_show line.now }
{
    matches!(line, ListHead::Show)
}

impl TheoremParser {
    /// Whether a line that takes literals may come here, and then the names before them, from left
    /// to right.
    fn check_head(&self, line: &ListHead) -> Result<(), LineError>
        requires { FitsScope self.now }
        ensures { Gives (λ u. u) result (is_ready self.now line.now) }
    {
        right_place(list_may_come(self.section, line))?;
        match line {
            ListHead::Superpose { args, new } => {
                placed_in(&self.in_scope, args.items())?;
                fresh(&self.in_scope, new.items())
            }
            _ => Ok(()),
        }
    }
}

/// A line that may not come at its place is malformed.
fn right_place(right: bool) -> Result<(), LineError>
    ensures { Gives (λ u. u) result (right_count right) }
{
    if right {
        Ok(())
    } else {
        Err(LineError::Fault(FaultKind::Malformed))
    }
}
