//! Sets of kinds of objects, a bit for each recognizer and one for all other objects.
ghost use Rattle.std.specs.Prelude.{ℕ, ◌≡◌, ◌≢◌, ◌<◌, true};
ghost use Rattle.nq_types.specs.TypeSets.{is_in, IsOneBit};

/// The bit of all other objects.
pub const OTHER_PLACE: u32 = 63;

/// Kinds of objects: bit 0 is TRUEP's, bit 1 FALSEP's, the next are those of the shells' recognizers in their order, and
/// bit 63 is that of all other objects.
#[derive(Clone, Copy, Debug, PartialEq, Eq)]
pub struct TypeSet(pub u64);

/// Does a set have the objects of a bit?
pub fn has(set: TypeSet, place: u32) -> bool
    requires { place < 64 }
    ensures { result ≡ is_in set.0 place }
{
    (set.0 >> place) & 1 == 1
}

/// The set with the objects of a bit.
pub fn with(set: TypeSet, place: u32) -> TypeSet
    requires { place < 64 }
    ensures there { is_in result.0 place ≡ true }
    ensures others { (k : ℕ) → (k ≢ place) → is_in result.0 k ≡ is_in set.0 k }
{
    TypeSet(set.0 | (1 << place))
}

/// The set of one bit.
pub fn single(place: u32) -> TypeSet
    requires { place < 64 }
    ensures { IsOneBit result.0 place }
{
    with(TypeSet(0), place)
}

/// The set of all objects.
pub fn everything() -> TypeSet
    ensures { (k : ℕ) → k < 64 → is_in result.0 k ≡ true }
{
    let mut set = TypeSet(0);
    for place in 0..64u32 {
        set = with(set, place);
    }
    set
}
