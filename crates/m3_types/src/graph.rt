ghost use Rattle.std.specs.Prelude.{◌≡◌, ◌<◌, ◌++◌, ◌∷◌, ◌⊎◌, [], ℕ, Some, true, length, slice_get, slice_set, OnOk, OnErr, IfOk, All, Contains};
ghost use Rattle.std.specs.Option.{option_map};
ghost use Rattle.m3_types.specs.Definitions.{node_at, head_at};
ghost use Rattle.m3_types.specs.Kinds.{size_of};
ghost use Rattle.m3_types.specs.Marks.{mark_at};
ghost use Rattle.m3_types.specs.Noting.{IsNoted, newest_of};
ghost use Rattle.m3_types.specs.Reveals.{full_reveal, entry_at, first_known, AreNoted, AreHidden, AreFull};
ghost use Rattle.m3_types.specs.declared.nodes.Reveal.{Reveal as AReveal};
ghost use Rattle.m3_types.specs.declared.nodes.TypeNode.TheVariants.{Reserved};

use crate::kinds::size_at;
use crate::marks::mark_at;
use crate::nodes::{Reveal, TypeId, TypeNode};
use crate::places::PlaceIndex;
use m3_base::NoMemory;
use std::alloc::Global;

/// The types of a program and the constants in them, which grow while a program is read. A definition
/// may name places that are given later, so a place can be reserved and its definition set when it is
/// known. What is asked of a type is answered by what stands by then.
#[derive(Drop)]
pub struct TypeGraph<'a> {
    pub nodes: Vec<TypeNode<'a>>,
    pub reveals: Vec<Reveal>,
    about: PlaceIndex,
    hiding: PlaceIndex,
    fully: Vec<Option<u32>>,
    ghost noted: { AreNoted reveals.items about.newest about.links.items },
    ghost hidden: { AreHidden nodes.items reveals.items hiding.newest hiding.links.items },
    ghost full: { AreFull nodes.items reveals.items fully.items },
}

impl<'a> TypeGraph<'a> {
    /// A view for the whole program: whoever builds the graph lists each reveal here once too. In it
    /// each opaque type that is revealed anywhere counts as its full reveal.
    pub const WHOLE_PROGRAM: u32 = u32::MAX;

    pub fn new(alloc: Global) -> TypeGraph<'a>
        ensures nodes { result.nodes.items ≡ [] }
        ensures reveals { result.reveals.items ≡ [] }
    {
        TypeGraph {
            nodes: Vec::new(alloc),
            reveals: Vec::new(alloc),
            about: PlaceIndex::new(alloc),
            hiding: PlaceIndex::new(alloc),
            fully: Vec::new(alloc),
        }
    }

    /// Adds a definition behind all others.
    pub fn push(&mut self, node: TypeNode<'a>) -> Result<TypeId, NoMemory>
        ensures place { IfOk result (λ t. t.0 ≡ length self.old.nodes.items) }
        ensures nodes { OnOk result (self.new.nodes.items ≡ self.old.nodes.items ++ node.entry ∷ []) }
        ensures unchanged { OnErr result (self.new.nodes.items ≡ self.old.nodes.items) }
        ensures reveals { self.new.reveals.items ≡ self.old.reveals.items }
    {
        let place = self.nodes.len();
        if place >= u32::MAX as usize {
            return Err(NoMemory);
        }
        self.fully.push(None)?;
        if self.nodes.push(node).is_err() {
            self.fully.pop();
            return Err(NoMemory);
        }
        Ok(TypeId(place as u32))
    }

    /// Adds a place whose definition is set later.
    pub fn reserve(&mut self) -> Result<TypeId, NoMemory>
        ensures place { IfOk result (λ t. t.0 ≡ length self.old.nodes.items) }
        ensures nodes { OnOk result (self.new.nodes.items ≡ self.old.nodes.items ++ Reserved ∷ []) }
        ensures unchanged { OnErr result (self.new.nodes.items ≡ self.old.nodes.items) }
        ensures reveals { self.new.reveals.items ≡ self.old.reveals.items }
    {
        self.push(TypeNode::Reserved)
    }

    /// Whether a place was reserved and its definition isn't set yet.
    pub fn is_reserved(&self, t: TypeId) -> bool
        ensures yes { result ≡ true → node_at self.now.nodes.items t.0 ≡ Some Reserved }
        ensures no { node_at self.now.nodes.items t.0 ≡ Some Reserved → result ≡ true }
    {
        matches!(self.nodes.get(t.0 as usize), Some(TypeNode::Reserved))
    }

    /// Sets the definition of a place that was reserved.
    pub fn set(&mut self, t: TypeId, node: TypeNode<'a>)
        requires { node_at self.old.nodes.items t.0 ≡ Some Reserved }
        ensures nodes { self.new.nodes.items ≡ slice_set self.old.nodes.items t.0 node.entry }
        ensures reveals { self.new.reveals.items ≡ self.old.reveals.items }
    {
        set_item(&mut self.nodes, t.0 as usize, node);
    }

    /// Adds a reveal. A full one is found fastest where the definition of its type stands by then.
    pub fn reveal(&mut self, reveal: Reveal) -> Result<(), NoMemory>
        requires { reveal.opaque.0 < length self.old.nodes.items }
        ensures reveals { OnOk result (self.new.reveals.items ≡ self.old.reveals.items ++ reveal ∷ []) }
        ensures unchanged { OnErr result (self.new.reveals.items ≡ self.old.reveals.items) }
        ensures nodes { self.new.nodes.items ≡ self.old.nodes.items }
    {
        let place = self.reveals.len();
        if place >= u32::MAX as usize {
            return Err(NoMemory);
        }
        self.note_about(&reveal, place as u32)?;
        self.note_hiding(&reveal, place as u32)?;
        self.keep(reveal)
    }

    /// Notes a place under the view and the opaque type of a reveal.
    fn note_about(&mut self, reveal: &Reveal, place: u32) -> Result<(), NoMemory>
        ensures noted { OnOk result (IsNoted self.new.about.links.items (newest_of self.new.about.newest reveal.now.view reveal.now.opaque.0) place) }
        ensures nodes { self.new.nodes.items ≡ self.old.nodes.items }
        ensures reveals { self.new.reveals.items ≡ self.old.reveals.items }
    {
        self.about
            .note(reveal.view, reveal.opaque.0 as usize, place)
    }

    /// Notes a place under the view of a full reveal and the mark of the type that it gives.
    fn note_hiding(&mut self, reveal: &Reveal, place: u32) -> Result<(), NoMemory>
        ensures noted { OnOk result (reveal.now.full ≡ true → IsNoted self.new.hiding.links.items
            (newest_of self.new.hiding.newest reveal.now.view (mark_at self.old.nodes.items reveal.now.bound.0)) place) }
        ensures nodes { self.new.nodes.items ≡ self.old.nodes.items }
        ensures reveals { self.new.reveals.items ≡ self.old.reveals.items }
        ensures about { self.new.about ≡ self.old.about }
    {
        if !reveal.full {
            return Ok(());
        }
        let mark = mark_at(&self.nodes, reveal.bound.0 as usize);
        self.hiding.note(reveal.view, mark as usize, place)
    }

    /// Adds a reveal whose place is noted.
    fn keep(&mut self, reveal: Reveal) -> Result<(), NoMemory>
        requires there { reveal.opaque.0 < length self.old.nodes.items }
        requires noted { IsNoted self.old.about.links.items (newest_of self.old.about.newest reveal.view reveal.opaque.0) (length self.old.reveals.items) }
        requires hidden { reveal.full ≡ true → IsNoted self.old.hiding.links.items
            (newest_of self.old.hiding.newest reveal.view (mark_at self.old.nodes.items reveal.bound.0)) (length self.old.reveals.items) }
        ensures reveals { OnOk result (self.new.reveals.items ≡ self.old.reveals.items ++ reveal ∷ []) }
        ensures unchanged { OnErr result (self.new.reveals.items ≡ self.old.reveals.items) }
        ensures nodes { self.new.nodes.items ≡ self.old.nodes.items }
    {
        self.reveals.push(reveal)?;
        note_full(&mut self.fully, &reveal);
        Ok(())
    }

    /// The type that fully reveals an opaque type, also where the reveal is hidden from a unit; none
    /// where no reveal of the program does.
    pub fn full_reveal(&self, t: TypeId) -> Option<TypeId>
        requires { t.0 < length self.now.nodes.items }
        ensures { option_map (λ u. u.0) result ≡ full_reveal self.now.reveals.items t.0 }
    {
        let behind = self.fully.get(t.0 as usize).copied()?;
        behind.map(TypeId)
    }

    /// The number of members of an ordinal type, and 0 where a type isn't one.
    pub fn member_count(&self, t: TypeId) -> u128
        ensures { result ≡ size_of (head_at self.now.nodes.items t.0) }
    {
        size_at(&self.nodes, t.0 as usize)
    }

    /// Reveals of the graph, those of the opaque type at a place in a view among them.
    pub fn reveals_of(
        &self,
        alloc: Global,
        view: u32,
        opaque: usize,
    ) -> Result<Vec<Reveal>, NoMemory>
        ensures there { IfOk result (λ found. All (λ r. Contains self.now.reveals.items r) found.items) }
        ensures all { IfOk result (λ found. (r : AReveal) → Contains self.now.reveals.items r → r.view ≡ view → r.opaque.0 ≡ opaque →
            ∥ Contains found.items r ∥₁) }
    {
        let places = self.about.noted(alloc, view, opaque)?;
        let found = reveals_at(alloc, &self.reveals, &places)?;
        Ok(found)
    }

    /// Reveals of the graph, among them each full one in a view whose type has a mark of 0 or that of
    /// the type at a place: its brand is that type's, or it has none.
    pub fn reveals_to(&self, alloc: Global, view: u32, t: usize) -> Result<Vec<Reveal>, NoMemory>
        ensures there { IfOk result (λ found. All (λ r. Contains self.now.reveals.items r) found.items) }
        ensures all { IfOk result (λ found. (r : AReveal) → Contains self.now.reveals.items r → r.view ≡ view → r.full ≡ true →
            (mark_at self.now.nodes.items r.bound.0 ≡ 0) ⊎ (mark_at self.now.nodes.items r.bound.0 ≡ mark_at self.now.nodes.items t) →
            ∥ Contains found.items r ∥₁) }
    {
        let mark = mark_at(&self.nodes, t);
        let places = self.hiding.noted_at_either(alloc, view, mark as usize)?;
        let found = reveals_at(alloc, &self.reveals, &places)?;
        Ok(found)
    }
}

/// Sets the item at a place of a list, where it is there.
fn set_item<T: Drop>(items: &mut Vec<T>, place: usize, item: T)
    ensures { items.new.items ≡ slice_set items.old.items place item }
{
    if place < items.len() {
        items[place] = item;
    }
}

/// The reveals at those places of a list that are in it.
fn reveals_at(alloc: Global, reveals: &[Reveal], places: &[u32]) -> Result<Vec<Reveal>, NoMemory>
    ensures there { IfOk result (λ found. All (λ r. Contains reveals.now r) found.items) }
    ensures all { IfOk result (λ found. (p : ℕ) (r : AReveal) → Contains places.now p → slice_get reveals.now p ≡ Some r → Contains found.items r) }
{
    let mut found = Vec::new(alloc);
    for place in places {
        add_at(&mut found, reveals, *place)?;
    }
    Ok(found)
}

/// Adds the reveal at a place of a list, where it is there.
fn add_at(found: &mut Vec<Reveal>, reveals: &[Reveal], place: u32) -> Result<(), NoMemory>
    ensures there { OnOk result (All (λ r. Contains reveals.now r) found.old.items → All (λ r. Contains reveals.now r) found.new.items) }
    ensures keeps { OnOk result ((r : AReveal) → Contains found.old.items r → Contains found.new.items r) }
    ensures has { OnOk result ((r : AReveal) → slice_get reveals.now place ≡ Some r → Contains found.new.items r) }
{
    if let Some(reveal) = reveal_at(reveals, place) {
        found.push(reveal)?;
    }
    Ok(())
}

fn reveal_at(reveals: &[Reveal], place: u32) -> Option<Reveal>
    ensures { result ≡ slice_get reveals.now place }
{
    reveals.get(place as usize).copied()
}

/// Notes the type of a full reveal, unless one of the same opaque type was noted before.
fn note_full(fully: &mut Vec<Option<u32>>, reveal: &Reveal)
    ensures entries { (i : ℕ) → i < length fully.old.items →
        entry_at fully.new.items i ≡ first_known (entry_at fully.old.items i) (full_reveal (reveal.now ∷ []) i) }
    ensures size { length fully.new.items ≡ length fully.old.items }
{
    let place = reveal.opaque.0 as usize;
    if !reveal.full || place >= fully.len() {
        return;
    }
    if fully[place].is_none() {
        fully[place] = Some(reveal.bound.0);
    }
}
