//! Nodes in pages: each page but the last is full, so the place of a node tells its page. What lies with a node lies in its
//! page, so a slice of arguments is never split; a page never moves.
ghost use Rattle.std.specs.Prelude.{◌≡◌, ◌<◌, ◌≤◌, ◌-◌, ◌%◌, ◌++◌, ◌∷◌, [], length, take, true, false, is_ok, if◌then◌else◌, OnOk};
ghost use Rattle.nq_bank.specs.Entries.{entry_at, stored, IsCounted};
ghost use Rattle.nq_bank.specs.Paging.{joined, page_size, last_page, ArePages, HasRoom, HasNode};
ghost use Rattle.nq_bank.specs.Wanted.{is_wanted};

use crate::node::{Kept, Node, TermId};
use crate::page::{PAGE_SIZE, Page};
use std::alloc::{AllocError, Global};
use std::marker::Model;

/// The greatest count of pages.
const MOST_PAGES: usize = 1 << 20;

/// Nodes in pages.
#[derive(Drop)]
pub struct Pages {
    alloc: Global,
    pages: Vec<Page>,
}

impl Model for Pages {
    ghost use Rattle.std.specs.Prelude.{List};
    ghost use Rattle.nq_bank.specs.Entries.{Stored};
    ghost use Rattle.nq_bank.specs.Paging.{joined, ArePages};

    ghost Value = { List Stored };

    ghost view = { λ p. joined p.pages.items };

    ghost invariant = { λ p. ArePages p.pages.items };
}

/// How many nodes these pages have.
fn count_in(pages: &[Page]) -> usize
    requires { ArePages pages.now }
    ensures { result ≡ length (joined pages.now) }
{
    let count = pages.len();
    if count == 0 {
        0
    } else {
        (count - 1) * PAGE_SIZE + pages[count - 1].len()
    }
}

/// The page of a node.
fn page_of(pages: &[Page], i: usize) -> &Page
    requires pages { ArePages pages.now }
    requires stands { i < length (joined pages.now) }
    ensures stands { i % page_size < length result.now }
    ensures is { entry_at result.now (i % page_size) ≡ entry_at (joined pages.now) i }
{
    &pages[i / PAGE_SIZE]
}

/// Has the last page room for a node?
fn has_room(pages: &[Page]) -> bool
    ensures room { result ≡ true → HasRoom pages.now }
    ensures none { result ≡ false → 0 < length pages.now → page_size ≤ length (last_page pages.now) }
{
    let count = pages.len();
    0 < count && pages[count - 1].len() < PAGE_SIZE
}

/// Makes room for one more node.
fn make_room(alloc: Global, pages: &mut Vec<Page>) -> Result<(), AllocError>
    requires { ArePages pages.old.items }
    ensures pages { ArePages pages.new.items }
    ensures same { joined pages.new.items ≡ joined pages.old.items }
    ensures room { OnOk result (HasRoom pages.new.items) }
{
    if has_room(pages) {
        return Ok(());
    }
    if pages.len() >= MOST_PAGES {
        return Err(AllocError);
    }
    let page = Page::new(alloc)?;
    pages.push(page)?;
    Ok(())
}

/// One more node, in the last page.
fn push_last(
    pages: &mut [Page],
    node: Node,
    arguments: &[TermId],
    kept: Kept,
) -> Result<(), AllocError>
    requires pages { ArePages pages.old }
    requires room { HasRoom pages.old }
    requires counted { IsCounted node arguments.now }
    ensures pages { ArePages pages.new }
    ensures nodes { joined pages.new ≡ (if is_ok result then joined pages.old ++ stored node arguments.now kept ∷ [] else joined pages.old) }
{
    let last = pages.len() - 1;
    pages[last].push(node, arguments, kept)
}

/// Gives back the last page where it is empty.
fn drop_empty(pages: &mut Vec<Page>)
    requires pages { ArePages pages.old.items }
    requires some { 0 < length (joined pages.old.items) }
    ensures pages { ArePages pages.new.items }
    ensures same { joined pages.new.items ≡ joined pages.old.items }
    ensures node { HasNode pages.new.items }
{
    let last = pages.len() - 1;
    if pages[last].len() == 0 {
        pages.truncate(last);
    }
}

/// Gives back the newest node, of the last page.
fn pop_last(pages: &mut [Page])
    requires pages { ArePages pages.old }
    requires node { HasNode pages.old }
    ensures pages { ArePages pages.new }
    ensures nodes { joined pages.new ≡ take (length (joined pages.old) - 1) (joined pages.old) }
{
    let last = pages.len() - 1;
    pages[last].pop();
}

impl Pages {
    /// No nodes.
    pub fn new(alloc: Global) -> Pages
        ensures { result ≡ [] }
    {
        Pages {
            alloc,
            pages: Vec::new(alloc),
        }
    }

    /// How many nodes there are.
    pub fn len(&self) -> usize
        ensures { result ≡ length self.now }
    {
        count_in(&self.pages)
    }

    /// The head of a node.
    pub fn node(&self, i: usize) -> Node
        requires { i < length self.now }
        ensures { result ≡ (entry_at self.now i).node }
    {
        page_of(&self.pages, i).node(i % PAGE_SIZE)
    }

    /// The depth of a node.
    pub fn depth(&self, i: usize) -> u32
        requires { i < length self.now }
        ensures { result ≡ (entry_at self.now i).depth }
    {
        page_of(&self.pages, i).depth(i % PAGE_SIZE)
    }

    /// The size of a node.
    pub fn size(&self, i: usize) -> u64
        requires { i < length self.now }
        ensures { result ≡ (entry_at self.now i).size }
    {
        page_of(&self.pages, i).size(i % PAGE_SIZE)
    }

    /// Is a node a value?
    pub fn is_value(&self, i: usize) -> bool
        requires { i < length self.now }
        ensures { result ≡ (entry_at self.now i).value }
    {
        page_of(&self.pages, i).is_value(i % PAGE_SIZE)
    }

    /// The arguments of a node.
    pub fn args(&self, i: usize) -> &[TermId]
        requires { i < length self.now }
        ensures { result.now ≡ (entry_at self.now i).arguments }
    {
        page_of(&self.pages, i).args(i % PAGE_SIZE)
    }

    /// Is it the node with this head and these arguments?
    pub fn is_node(&self, i: usize, node: Node, arguments: &[TermId]) -> bool
        requires { i < length self.now }
        ensures { result ≡ is_wanted node arguments.now (entry_at self.now i) }
    {
        page_of(&self.pages, i).is_node(i % PAGE_SIZE, node, arguments)
    }

    /// One more node.
    pub fn push(&mut self, node: Node, arguments: &[TermId], kept: Kept) -> Result<(), AllocError>
        requires { IsCounted node arguments.now }
        ensures { self.new ≡ (if is_ok result then self.old ++ stored node arguments.now kept ∷ [] else self.old) }
    {
        make_room(self.alloc, &mut self.pages)?;
        push_last(&mut self.pages, node, arguments, kept)
    }

    /// Gives back the newest node.
    pub fn pop(&mut self)
        requires { 0 < length self.old }
        ensures { self.new ≡ take (length self.old - 1) self.old }
    {
        drop_empty(&mut self.pages);
        pop_last(&mut self.pages);
    }
}
