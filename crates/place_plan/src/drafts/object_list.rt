//! Lists of objects.
//!
//! A draft may name objects that aren't there, of any number. A list with such a number has no bits, and is gone through.

ghost use Rattle.std.specs.Prelude.{◌≡◌, ◌↔◌, [], length, IfSome, IsTrue};
ghost use Rattle.std.specs.List.{list_all};
ghost use Rattle.caa_base.specs.Written.Lists.{is_empty, member};
ghost use Rattle.place_plan.specs.inner.ObjectBits.{bits_have, AreBitsOf, HaveAllBits};

use crate::rules::member::is_member;
use caa_base::written::entry::Object;
use cover_table::{Row, has_bit, with_bit};
use std::alloc::Global;
use std::marker::Model;

/// A bit for each number below 256: number 128 * r + b has bit b of row r.
type Bits = [Row; 2];

/// A list of objects that doesn't change, seen as the list of their numbers.
///
/// Beside it stand the bits of its numbers, so an object is looked for in one look, and all those of another list in two.
#[derive(Drop)]
pub struct ObjectList {
    items: Vec<Object>,
    /// None where a number has no bit. No draft has so many objects.
    bits: Option<Bits>,
}

impl Model for ObjectList {
    ghost use Rattle.std.specs.Prelude.{List, ℕ};
    ghost use Rattle.place_plan.specs.inner.ObjectBits.{MayBeBitsOf};

    ghost Value = { List ℕ };

    ghost view = { λ o. o.items.items };

    ghost invariant = { λ o. MayBeBitsOf o.bits o.items.items };
}

/// The bits of these objects, where each has one.
fn bits_of(objects: &[Object]) -> Option<Bits>
    ensures { IfSome result (λ bits. AreBitsOf bits objects.now) }
{
    let mut bits = [0; 2];
    for object in objects {
        let row = (*object / Row::BITS) as usize;
        if row >= bits.len() {
            return None;
        }
        bits[row] = with_bit(bits[row], *object % Row::BITS);
    }
    Some(bits)
}

/// Whether an object has its bit.
fn bits_have(bits: &Bits, object: Object) -> bool
    ensures { result ≡ bits_have bits.now object }
{
    match bits.get((object / Row::BITS) as usize) {
        Some(row) => has_bit(*row, object % Row::BITS),
        None => false,
    }
}

/// Whether those numbers that have their bits in the second have them in the first.
fn bits_have_all(bits: &Bits, others: &Bits) -> bool
    ensures { IsTrue result ↔ HaveAllBits bits.now others.now }
{
    bits[0] & others[0] == others[0] && bits[1] & others[1] == others[1]
}

impl ObjectList {
    /// No objects.
    pub fn new(alloc: Global) -> ObjectList
        ensures { result ≡ [] }
    {
        ObjectList::from_vec(Vec::new(alloc))
    }

    /// The objects of a vector, in order.
    pub fn from_vec(items: Vec<Object>) -> ObjectList
        ensures { result ≡ items.items }
    {
        let bits = bits_of(&items);
        ObjectList { items, bits }
    }

    /// All objects, in order.
    pub fn as_slice(&self) -> &[Object]
        ensures { result.now ≡ self.now }
    {
        self.items.as_slice()
    }

    /// How many objects there are.
    pub fn len(&self) -> usize
        ensures { result ≡ length self.now }
    {
        self.items.len()
    }

    /// Whether there are none.
    pub fn is_empty(&self) -> bool
        ensures { result ≡ is_empty self.now }
    {
        self.items.is_empty()
    }

    /// Whether an object is there.
    pub fn contains(&self, object: Object) -> bool
        ensures { result ≡ member object self.now }
    {
        match &self.bits {
            Some(bits) => bits_have(bits, object),
            None => is_member(object, &self.items),
        }
    }

    /// Whether all objects of another list are there.
    pub fn has_all(&self, objects: &ObjectList) -> bool
        ensures { result ≡ list_all (λ o. member o self.now) objects.now }
    {
        match (&self.bits, &objects.bits) {
            (Some(bits), Some(others)) => bits_have_all(bits, others),
            _ => objects
                .items
                .iter()
                .all(|object| is_member(*object, &self.items)),
        }
    }
}
