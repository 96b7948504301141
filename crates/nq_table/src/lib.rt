//! A table that finds ids by the hashes of their keys.
//!
//! The table is a list of places; each holds 0, or one more than an id. A hash has a first place, and its id stands at the
//! first place from there, round the end, that was empty when the id was put in. The table is always the one that comes of
//! putting the ids in, from the oldest to the newest (`table_of`): so taking out the newest gives the table before it.
#![tactic(auto)]

ghost use Rattle.std.specs.Prelude.{◌≡◌, ◌≤◌, ◌<◌, ◌^◌, ◌-◌, length, set, ◌+◌};
ghost use Rattle.nq_table.specs.Tables.{first_place, next_place, place_of, place_from, taken_out, tag, TakesBack, FindsRight, FindsAll};

/// The first place of a hash in a table of so many places.
pub fn first_place(count: usize, hash: u32) -> usize
    requires some { 0 < count }
    requires few { count ≤ 2 ^ 32 }
    ensures value { result ≡ first_place count hash }
    ensures within { result < count }
{
    ((u64::from(hash) * count as u64) >> 32) as usize
}

/// The place after a place, round the end.
pub fn next_place(count: usize, place: usize) -> usize
    requires { place < count }
    ensures value { result ≡ next_place count place }
    ensures within { result < count }
{
    if place + 1 == count { 0 } else { place + 1 }
}

/// The first place from a place on, round the end, that holds v.
pub fn place_of(places: &[u32], v: u32, start: usize) -> usize
    requires { start < length places.now }
    ensures value { result ≡ place_of places.now v (length places.now) start }
    ensures within { result < length places.now }
{
    let count = places.len();
    let mut place = start;
    for step in 0..count {
        if places[place] == v {
            return place;
        }
        place = next_place(count, place);
    }
    place
}

/// The tag of a hash.
pub fn tag(hash: u32) -> u8
    ensures { result ≡ tag hash }
{
    (hash % 128) as u8 + 128
}

/// The first place from a place on, round the end, that is empty.
pub fn free_place(tags: &[u8], start: usize) -> usize
    requires { start < length tags.now }
    ensures value { result ≡ place_of tags.now 0 (length tags.now) start }
    ensures within { result < length tags.now }
{
    let count = tags.len();
    let mut place = start;
    for step in 0..count {
        if tags[place] == 0 {
            return place;
        }
        place = next_place(count, place);
    }
    place
}

/// Puts an id and its tag in at the hash of its key.
pub fn put_tagged(places: &mut [u32], tags: &mut [u8], hash: u32, id: u32)
    requires some { 0 < length places.old }
    requires few { length places.old ≤ 2 ^ 32 }
    requires same { length tags.old ≡ length places.old }
    requires id { id < 2 ^ 32 - 1 }
    ensures places { places.new ≡ set places.old (place_from tags.old 0 hash) (id + 1) }
    ensures tags { tags.new ≡ set tags.old (place_from tags.old 0 hash) (tag hash) }
{
    let start = first_place(tags.len(), hash);
    let place = free_place(tags, start);
    places[place] = id + 1;
    tags[place] = tag(hash);
}

/// Takes an id and its tag out at the hash of its key.
pub fn take_tagged(places: &mut [u32], tags: &mut [u8], hash: u32, id: u32)
    requires some { 0 < length places.old }
    requires few { length places.old ≤ 2 ^ 32 }
    requires same { length tags.old ≡ length places.old }
    requires id { id < 2 ^ 32 - 1 }
    ensures places { places.new ≡ taken_out places.old hash id }
    ensures tags { tags.new ≡ set tags.old (place_from places.old (id + 1) hash) 0 }
{
    let start = first_place(places.len(), hash);
    let place = place_of(places, id + 1, start);
    places[place] = 0;
    tags[place] = 0;
}

/// Tells a caller's proof that the newest id can be taken out again. It does nothing.
pub fn takes_back()
    ensures { TakesBack }
{}

/// Tells a caller's proof what a search of the table finds. It does nothing.
pub fn finds()
    ensures right { FindsRight }
    ensures all { FindsAll }
{}
