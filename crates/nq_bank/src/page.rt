//! A page of nodes: their records one after another, and the words that lie with them one after another.
ghost use Rattle.std.specs.Prelude.{◌≡◌, ◌<◌, ◌≤◌, ◌-◌, ◌++◌, ◌∷◌, [], length, slice_index_or, take, is_ok, if◌then◌else◌, IfOk};
ghost use Rattle.nq_bank.specs.Entries.{entry_at, entry_with, no_record, part, record_of, start_at, stored, IsCounted};
ghost use Rattle.nq_bank.specs.Wanted.{is_wanted};

use crate::node::{Kept, Node, TermId};
use crate::record::{Kind, Record, arguments_of, halves, node_of, record_of, size_of_record};
use std::alloc::{AllocError, Global};
use std::marker::Model;

/// How many nodes a page has room for.
pub const PAGE_SIZE: usize = 4096;

/// Nodes with what lies with them.
#[derive(Drop)]
pub struct Page {
    records: Vec<Record>,
    words: Vec<TermId>,
}

impl Model for Page {
    ghost use Rattle.std.specs.Prelude.{List, length};
    ghost use Rattle.nq_bank.specs.Entries.{Stored, entries, AreLaid};

    ghost Value = { List Stored };

    ghost view = { λ p. entries p.words.items 0 p.records.items };

    ghost invariant = { λ p. AreLaid 0 p.records.items (length p.words.items) };
}

/// The record at a place.
fn record_at(records: &[Record], i: usize) -> Record
    requires { i < length records.now }
    ensures { result ≡ slice_index_or records.now i no_record }
{
    records[i]
}

/// What lies from a place to another.
fn part(words: &[TermId], start: usize, end: usize) -> &[TermId]
    requires forward { start ≤ end }
    requires within { end ≤ length words.now }
    ensures { result.now ≡ part words.now start end }
{
    &words[start..end]
}

/// Where the words of a node begin: where those of the node before end.
fn start_of(records: &[Record], i: usize) -> usize
    requires { i < length records.now }
    ensures { result ≡ start_at records.now i }
{
    if i == 0 {
        0
    } else {
        record_at(records, i - 1).end as usize
    }
}

/// One more record, whose words end at a place.
fn push_record(
    records: &mut Vec<Record>,
    kind: Kind,
    name: u64,
    end: usize,
    kept: Kept,
) -> Result<(), AllocError>
    ensures { records.new.items ≡ (if is_ok result then records.old.items ++ record_of kind name end kept ∷ [] else records.old.items) }
{
    let record = record_of(kind, name, end, kept)?;
    records.push(record)?;
    Ok(())
}

impl Page {
    /// No nodes, and room for a page of them.
    pub fn new(alloc: Global) -> Result<Page, AllocError>
        ensures { IfOk result (λ p. p ≡ []) }
    {
        Ok(Page {
            records: Vec::with_capacity(alloc, PAGE_SIZE)?,
            words: Vec::new(alloc),
        })
    }

    /// How many nodes there are.
    pub fn len(&self) -> usize
        ensures { result ≡ length self.now }
    {
        self.records.len()
    }

    /// What lies with a node.
    fn laid_at(&self, i: usize) -> (Record, &[TermId])
        requires { i < length self.now }
        ensures { entry_with result.0 result.1.now ≡ entry_at self.now i }
    {
        let start = start_of(&self.records, i);
        let record = record_at(&self.records, i);
        (record, part(&self.words, start, record.end as usize))
    }

    /// The head of a node.
    pub fn node(&self, i: usize) -> Node
        requires { i < length self.now }
        ensures { result ≡ (entry_at self.now i).node }
    {
        let (record, words) = self.laid_at(i);
        node_of(record, words)
    }

    /// The depth of a node.
    pub fn depth(&self, i: usize) -> u32
        requires { i < length self.now }
        ensures { result ≡ (entry_at self.now i).depth }
    {
        u32::from(record_at(&self.records, i).depth)
    }

    /// The size of a node.
    pub fn size(&self, i: usize) -> u64
        requires { i < length self.now }
        ensures { result ≡ (entry_at self.now i).size }
    {
        size_of_record(record_at(&self.records, i))
    }

    /// Is a node a value?
    pub fn is_value(&self, i: usize) -> bool
        requires { i < length self.now }
        ensures { result ≡ (entry_at self.now i).value }
    {
        record_at(&self.records, i).value
    }

    /// The arguments of a node.
    pub fn args(&self, i: usize) -> &[TermId]
        requires { i < length self.now }
        ensures { result.now ≡ (entry_at self.now i).arguments }
    {
        let (record, words) = self.laid_at(i);
        arguments_of(record.kind, words)
    }

    /// Is it the node with this head and these arguments?
    pub fn is_node(&self, i: usize, node: Node, arguments: &[TermId]) -> bool
        requires { i < length self.now }
        ensures { result ≡ is_wanted node arguments.now (entry_at self.now i) }
    {
        node == self.node(i) && arguments == self.args(i)
    }

    /// One more record, and the words that lie with it.
    fn push_words(
        &mut self,
        kind: Kind,
        name: u64,
        words: &[TermId],
        kept: Kept,
    ) -> Result<(), AllocError>
        ensures { self.new ≡ (if is_ok result then self.old ++ entry_with (record_of kind name 0 kept) words.now ∷ [] else self.old) }
    {
        let start = self.words.len();
        self.words.extend_from_slice(words)?;
        match push_record(&mut self.records, kind, name, self.words.len(), kept) {
            Ok(()) => Ok(()),
            Err(_) => {
                self.words.truncate(start);
                Err(AllocError)
            }
        }
    }

    /// One more node.
    pub fn push(&mut self, node: Node, arguments: &[TermId], kept: Kept) -> Result<(), AllocError>
        requires { IsCounted node arguments.now }
        ensures { self.new ≡ (if is_ok result then self.old ++ stored node arguments.now kept ∷ [] else self.old) }
    {
        match node {
            Node::Var(s) => self.push_words(Kind::Variable, s.0, arguments, kept),
            Node::Num(n) => self.push_words(Kind::Numeral, 0, &halves(n), kept),
            Node::App(f, _count) => self.push_words(Kind::Call, f.0, arguments, kept),
        }
    }

    /// Gives back the newest node.
    pub fn pop(&mut self)
        requires { 0 < length self.old }
        ensures { self.new ≡ take (length self.old - 1) self.old }
    {
        let last = self.records.len() - 1;
        let start = start_of(&self.records, last);
        self.words.truncate(start);
        self.records.truncate(last);
    }
}
