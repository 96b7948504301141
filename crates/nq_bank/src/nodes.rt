//! The nodes: each node stands once, and is found by the hash of its head and its arguments.
ghost use Rattle.std.specs.Prelude.{◌≡◌, ◌≢◌, slice_index, replicate, ◌+◌, ◌-◌, ◌^◌, ◌<◌, ◌≤◌, ◌++◌, ◌∷◌, [], length, take, All, IfSome, IfNone, IfOk, OnOk, OnErr, is_ok, if◌then◌else◌};
ghost use Rattle.nq_table.specs.Tables.{put_in, table_of, tags_of, tag, found_from, found};
ghost use Rattle.nq_bank.specs.Entries.{Stored, entry_at, stored, IsCounted};
ghost use Rattle.nq_bank.specs.Hashes.{hashes, hash_of, hash_of_entry};
ghost use Rattle.nq_bank.specs.Places.{IsTagged, is_at};
ghost use Rattle.nq_bank.specs.Faults.{memory_fault};
ghost use Rattle.nq_bank.specs.Nodes.{IsStoredAt, IsStored, IsPlaced};

use crate::hash::hash_of;
use crate::node::{BankFault, Kept, Node, TermId};
use crate::pages::Pages;
use nq_table::{first_place, next_place, put_tagged, tag, take_tagged};
use std::alloc::{AllocError, Global};
use std::marker::Model;

/// The greatest count of places of a table that grows.
const MOST_PLACES: usize = 1 << 30;

/// The table of ids, and the tags of its places.
#[derive(Drop)]
struct Slots {
    places: Vec<u32>,
    tags: Vec<u8>,
}

/// The nodes, and the table of their ids.
#[derive(Drop)]
pub struct Nodes {
    alloc: Global,
    pages: Pages,
    slots: Slots,
}

impl Model for Nodes {
    ghost use Rattle.std.specs.Prelude.{List};
    ghost use Rattle.nq_bank.specs.Entries.{Stored};
    ghost use Rattle.nq_bank.specs.Places.{IsTagged};

    ghost Value = { List Stored };

    ghost view = { λ n. n.pages };

    ghost invariant = { λ n. IsTagged n.pages n.slots.places.items n.slots.tags.items };
}

/// Is the node whose id stands at a place the one with this head and these arguments? Where the tags differ it is not.
fn is_here(
    pages: &Pages,
    places: &[u32],
    tags: &[u8],
    place: usize,
    node: Node,
    arguments: &[TermId],
    sought: u8,
) -> bool
    requires table { IsTagged pages.now places.now tags.now }
    requires place { place < length places.now }
    requires some { slice_index places.now place ≢ 0 }
    requires sought { sought ≡ tag (hash_of node arguments.now) }
    ensures { result ≡ is_at pages.now node arguments.now (slice_index places.now place - 1) }
{
    tags[place] == sought && pages.is_node((places[place] - 1) as usize, node, arguments)
}

/// The id of the node with this head and these arguments, from a place of the table on.
fn found_from(
    pages: &Pages,
    places: &[u32],
    tags: &[u8],
    start: usize,
    node: Node,
    arguments: &[TermId],
    sought: u8,
) -> Option<u32>
    requires table { IsTagged pages.now places.now tags.now }
    requires start { start < length places.now }
    requires sought { sought ≡ tag (hash_of node arguments.now) }
    ensures { result ≡ found_from (is_at pages.now node arguments.now) places.now (length places.now) start }
{
    let count = places.len();
    let mut place = start;
    for step in 0..count {
        if tags[place] == 0 {
            return None;
        }
        if is_here(pages, places, tags, place, node, arguments, sought) {
            return Some(places[place] - 1);
        }
        place = next_place(count, place);
    }
    None
}

/// Puts the first nodes into an empty table.
fn fill(pages: &Pages, places: &mut [u32], tags: &mut [u8])
    requires places { places.old ≡ replicate (length places.old) 0 }
    requires tags { tags.old ≡ replicate (length places.old) 0 }
    requires room { length pages.now ≤ length places.old }
    requires few { length places.old ≤ 2 ^ 31 }
    ensures places { places.new ≡ table_of (length places.old) (hashes pages.now) (length pages.now) }
    ensures tags { tags.new ≡ tags_of (hashes pages.now) places.new }
{
    for id in 0..pages.len() {
        put_entry(pages, places, tags, id);
    }
}

/// Puts the id of a node into the table.
fn put_entry(pages: &Pages, places: &mut [u32], tags: &mut [u8], id: usize)
    requires id { id < length pages.now }
    requires some { length pages.now ≤ length places.old }
    requires few { length places.old ≤ 2 ^ 31 }
    requires tags { tags.old ≡ tags_of (hashes pages.now) places.old }
    ensures places { places.new ≡ put_in places.old (slice_index (hashes pages.now) id) id }
    ensures tags { tags.new ≡ tags_of (hashes pages.now) places.new }
{
    let hash = hash_of(pages.node(id), pages.args(id));
    put_tagged(places, tags, hash, id as u32);
}

/// The table of all nodes, with so many places.
fn rebuilt(alloc: Global, pages: &Pages, count: usize) -> Result<Slots, AllocError>
    requires some { length pages.now ≤ count }
    requires few { count ≤ 2 ^ 31 }
    ensures table { IfOk result (λ s. IsTagged pages.now s.places.items s.tags.items) }
    ensures count { IfOk result (λ s. length s.places.items ≡ count) }
{
    let mut places = Vec::new(alloc);
    places.resize(count, 0)?;
    let mut tags = Vec::new(alloc);
    tags.resize(count, 0)?;
    fill(pages, &mut places, &mut tags);
    Ok(Slots { places, tags })
}

/// How many places a table has after it grew.
fn more_places(count: usize) -> Result<usize, AllocError>
    ensures { IfOk result (λ n. (count < n) × (n ≤ 2 ^ 31)) }
{
    if count > MOST_PLACES {
        return Err(AllocError);
    }
    if count == 0 {
        return Ok(16);
    }
    Ok(count * 2)
}

/// Makes room in the table for one more node: a quarter of the places stays empty.
fn make_room(alloc: Global, pages: &Pages, slots: &mut Slots) -> Result<(), AllocError>
    requires { IsTagged pages.now slots.old.places.items slots.old.tags.items }
    ensures table { IsTagged pages.now slots.new.places.items slots.new.tags.items }
    ensures room { OnOk result (length pages.now < length slots.new.places.items) }
{
    let count = slots.places.len();
    if pages.len() < count - count / 4 {
        return Ok(());
    }
    let more = more_places(count)?;
    *slots = rebuilt(alloc, pages, more)?;
    Ok(())
}

/// One more node, in the pages and in the table.
fn push_in(
    pages: &mut Pages,
    places: &mut [u32],
    tags: &mut [u8],
    node: Node,
    arguments: &[TermId],
    kept: Kept,
) -> Result<(), AllocError>
    requires table { IsTagged pages.old places.old tags.old }
    requires room { length pages.old < length places.old }
    requires counted { IsCounted node arguments.now }
    ensures table { IsTagged pages.new places.new tags.new }
    ensures nodes { pages.new ≡ (if is_ok result then pages.old ++ stored node arguments.now kept ∷ [] else pages.old) }
{
    let id = pages.len();
    pages.push(node, arguments, kept)?;
    let hash = hash_of(node, arguments);
    put_tagged(places, tags, hash, id as u32);
    Ok(())
}

/// Takes the newest node out of the pages and of the table.
fn take_newest(pages: &mut Pages, places: &mut [u32], tags: &mut [u8])
    requires table { IsTagged pages.old places.old tags.old }
    requires some { 0 < length pages.old }
    ensures table { IsTagged pages.new places.new tags.new }
    ensures nodes { pages.new ≡ take (length pages.old - 1) pages.old }
{
    let id = pages.len() - 1;
    let hash = hash_of(pages.node(id), pages.args(id));
    take_tagged(places, tags, hash, id as u32);
    pages.pop();
}

/// Takes the newest nodes out until so many are left.
fn release_to(pages: &mut Pages, places: &mut [u32], tags: &mut [u8], n: usize)
    requires table { IsTagged pages.old places.old tags.old }
    requires within { n ≤ length pages.old }
    ensures table { IsTagged pages.new places.new tags.new }
    ensures nodes { pages.new ≡ take n pages.old }
{
    let count = pages.len() - n;
    for gone in 0..count {
        take_newest(pages, places, tags);
    }
}

impl Nodes {
    /// No nodes.
    pub fn new(alloc: Global) -> Nodes
        ensures { result ≡ [] }
    {
        Nodes {
            alloc,
            pages: Pages::new(alloc),
            slots: Slots {
                places: Vec::new(alloc),
                tags: Vec::new(alloc),
            },
        }
    }

    /// How many nodes there are.
    pub fn len(&self) -> usize
        ensures { result ≡ length self.now }
    {
        self.pages.len()
    }

    /// The head of a node.
    pub fn node(&self, t: TermId) -> Node
        requires { t.0 < length self.now }
        ensures { result ≡ (entry_at self.now t.0).node }
    {
        self.pages.node(t.0 as usize)
    }

    /// The arguments of a node.
    pub fn args(&self, t: TermId) -> &[TermId]
        requires { t.0 < length self.now }
        ensures { result.now ≡ (entry_at self.now t.0).arguments }
    {
        self.pages.args(t.0 as usize)
    }

    /// The depth of a node.
    pub fn depth(&self, t: TermId) -> u32
        requires { t.0 < length self.now }
        ensures { result ≡ (entry_at self.now t.0).depth }
    {
        self.pages.depth(t.0 as usize)
    }

    /// The size of a node.
    pub fn size(&self, t: TermId) -> u64
        requires { t.0 < length self.now }
        ensures { result ≡ (entry_at self.now t.0).size }
    {
        self.pages.size(t.0 as usize)
    }

    /// Is a node a value?
    pub fn is_value(&self, t: TermId) -> bool
        requires { t.0 < length self.now }
        ensures { result ≡ (entry_at self.now t.0).value }
    {
        self.pages.is_value(t.0 as usize)
    }

    /// The place of the node with these arguments.
    pub fn find(&self, node: Node, arguments: &[TermId]) -> Option<TermId>
        ensures found { IfSome result (λ t. IsStoredAt self.now t node arguments.now) }
        ensures none { IfNone result (All (λ e. ¬ IsStored e node arguments.now) self.now) }
    {
        if self.slots.places.is_empty() {
            return None;
        }
        let hash = hash_of(node, arguments);
        let start = first_place(self.slots.places.len(), hash);
        let sought = tag(hash);
        match found_from(
            &self.pages,
            &self.slots.places,
            &self.slots.tags,
            start,
            node,
            arguments,
            sought,
        ) {
            Some(id) => Some(TermId(u64::from(id))),
            None => None,
        }
    }

    /// One more node.
    fn add(&mut self, node: Node, arguments: &[TermId], kept: Kept) -> Result<TermId, AllocError>
        requires { IsCounted node arguments.now }
        ensures place { IfOk result (λ t. t.0 ≡ length self.old) }
        ensures nodes { self.new ≡ (if is_ok result then self.old ++ stored node arguments.now kept ∷ [] else self.old) }
    {
        make_room(self.alloc, &self.pages, &mut self.slots)?;
        let id = self.pages.len();
        push_in(
            &mut self.pages,
            &mut self.slots.places,
            &mut self.slots.tags,
            node,
            arguments,
            kept,
        )?;
        Ok(TermId(id as u64))
    }

    /// The id of the node with these arguments: of the one that stands, or else of a new one.
    pub fn place(
        &mut self,
        node: Node,
        arguments: &[TermId],
        kept: Kept,
    ) -> Result<TermId, AllocError>
        requires { IsCounted node arguments.now }
        ensures ok { IfOk result (λ t. IsPlaced self.old self.new t node arguments.now kept.depth kept.size kept.value) }
        ensures err { OnErr result (self.new ≡ self.old) }
    {
        match self.find(node, arguments) {
            Some(t) => Ok(t),
            None => self.add(node, arguments, kept),
        }
    }

    /// Keeps just the first nodes. It takes no memory.
    pub fn release(&mut self, n: u64)
        requires { n ≤ length self.old }
        ensures { self.new ≡ take n self.old }
    {
        release_to(
            &mut self.pages,
            &mut self.slots.places,
            &mut self.slots.tags,
            n as usize,
        );
    }
}

/// The only fault of a node that is placed is want of memory.
pub fn or_memory(answer: Result<TermId, AllocError>) -> Result<TermId, BankFault>
    ensures { result ≡ memory_fault answer }
{
    match answer {
        Ok(t) => Ok(t),
        Err(_) => Err(BankFault::Memory),
    }
}
