//! Names in their order, each found by its first place.
ghost use Rattle.std.specs.Prelude.{◌≡◌, ◌-◌, [], ◌∷◌, ◌++◌, length, take, OnErr, OnOk};
ghost use Rattle.nq_history.specs.Places.{place_in, FindsPlaces};

use nq_bank::Sym;
use std::alloc::{AllocError, Global};
use std::collections::HashMap;
use std::marker::Model;

/// A list of names. A name may stand in it more than once. Its first place is kept in a map, so that it is found without a
/// walk.
#[derive(Drop)]
pub struct Names {
    list: Vec<Sym>,
    places: HashMap<u64, usize>,
}

impl Model for Names {
    ghost use Rattle.std.specs.Prelude.{List};
    ghost use Rattle.nq_bank.specs.declared.node.Sym.{Sym};
    ghost use Rattle.nq_history.specs.Places.{FindsPlaces};

    ghost Value = { List Sym };

    ghost view = { λ names. names.list.items };

    ghost invariant = { λ names. FindsPlaces names.list.items names.places };
}

impl Names {
    /// No names.
    pub fn new(alloc: Global) -> Names
        ensures { result ≡ [] }
    {
        Names {
            list: Vec::new(alloc),
            places: HashMap::new(alloc),
        }
    }

    /// The names, in their order.
    pub fn as_slice(&self) -> &[Sym]
        ensures { result.now ≡ self.now }
    {
        self.list.as_slice()
    }

    /// How many names there are.
    pub fn len(&self) -> usize
        ensures { result ≡ length self.now }
    {
        self.list.len()
    }

    /// The first place of the name.
    pub fn place(&self, name: Sym) -> Option<usize>
        ensures { result ≡ place_in name self.now }
    {
        self.places.get(&name.0).copied()
    }

    /// Adds a name at the end. It fails only for want of memory, and then the names are as they were.
    pub fn push(&mut self, name: Sym) -> Result<(), AllocError>
        ensures ok { OnOk result (self.new ≡ self.old ++ name ∷ []) }
        ensures err { OnErr result (self.new ≡ self.old) }
    {
        push_with_place(&mut self.list, &mut self.places, name)
    }

    /// Keeps the first names. It takes no memory.
    pub fn truncate(&mut self, count: usize)
        ensures { self.new ≡ take count self.old }
    {
        keep_first(&mut self.list, &mut self.places, count);
    }
}

/// Adds a name at the end, and its place where it stands nowhere before. After an error all is as it was.
fn push_with_place(
    list: &mut Vec<Sym>,
    places: &mut HashMap<u64, usize>,
    name: Sym,
) -> Result<(), AllocError>
    requires { FindsPlaces list.old.items places.old }
    ensures ok { OnOk result (list.new.items ≡ list.old.items ++ name ∷ []) }
    ensures err { OnErr result (list.new.items ≡ list.old.items) }
    ensures finds { FindsPlaces list.new.items places.new }
{
    let place = list.len();
    match list.push(name) {
        Ok(()) => {}
        Err(_) => return Err(AllocError),
    }
    if places.contains_key(&name.0) {
        return Ok(());
    }
    match places.insert(name.0, place) {
        Ok(_) => Ok(()),
        Err(_) => {
            list.truncate(place);
            Err(AllocError)
        }
    }
}

/// Takes away the last name, and its place where it stands nowhere before.
fn drop_last(list: &mut Vec<Sym>, places: &mut HashMap<u64, usize>)
    requires { FindsPlaces list.old.items places.old }
    ensures list { list.new.items ≡ take (length list.old.items - 1) list.old.items }
    ensures finds { FindsPlaces list.new.items places.new }
{
    if let Some(name) = list.pop() {
        if places.get(&name.0).copied() == Some(list.len()) {
            places.remove(&name.0);
        }
    }
}

/// Keeps the first names, and their places.
fn keep_first(list: &mut Vec<Sym>, places: &mut HashMap<u64, usize>, count: usize)
    requires { FindsPlaces list.old.items places.old }
    ensures list { list.new.items ≡ take count list.old.items }
    ensures finds { FindsPlaces list.new.items places.new }
{
    let length = list.len();
    for dropped in count..length {
        drop_last(list, places);
    }
}
