use crate::uses::{Use, Uses};
use m3_base::{NoMemory, place_number};
use std::alloc::Global;

/// A row of nodes in the order of a partition.
#[derive(Clone, Copy, PartialEq, Eq)]
struct Segment {
    first: u32,
    count: u32,
}

/// A node one of whose parts has moved to another class: its own class and that of the part.
#[derive(Clone, Copy, PartialEq, Eq, PartialOrd, Ord)]
struct Dirty {
    class: u32,
    target: u32,
    node: u32,
}

/// A class that is being split: what is left of it in front, and the pieces behind that, the last one
/// first.
#[derive(Drop)]
struct Splitting {
    class: u32,
    rest: Segment,
    pieces: Vec<Segment>,
}

/// Nodes in classes, which are split until nodes of one class have parts of equal classes.
#[derive(Drop)]
pub(crate) struct Partition {
    alloc: Global,
    /// The nodes, those of a class together.
    order: Vec<u32>,
    /// The place of each node in that order.
    places: Vec<u32>,
    /// The class of each node.
    classes: Vec<u32>,
    /// Where the nodes of each class stand in the order.
    segments: Vec<Segment>,
    /// The nodes that have moved to another class and whose users don't know it yet.
    moved: Vec<u32>,
}

fn item(list: &[u32], place: u32) -> u32 {
    match list.get(place as usize) {
        Some(number) => *number,
        None => 0,
    }
}

fn set(list: &mut Vec<u32>, place: u32, number: u32) {
    let place = place as usize;
    if place < list.len() {
        list[place] = number;
    }
}

impl Partition {
    /// The nodes of each number in a class. All of them count as moved.
    pub(crate) fn of(alloc: Global, numbers: &[u32]) -> Result<Partition, NoMemory> {
        let mut sorted = Vec::new(alloc);
        for (node, number) in numbers.iter().enumerate() {
            sorted.push((*number, place_number(node)?))?;
        }
        sorted.sort()?;
        let mut partition = Partition {
            alloc,
            order: Vec::new(alloc),
            places: vec![in alloc; 0u32; numbers.len()]?,
            classes: vec![in alloc; 0u32; numbers.len()]?,
            segments: Vec::new(alloc),
            moved: Vec::new(alloc),
        };
        let mut before = None;
        for (number, node) in &sorted {
            partition.append(*node, before != Some(*number))?;
            before = Some(*number);
        }
        Ok(partition)
    }

    /// Puts a node behind all others, into the class of the last one or into a new one.
    fn append(&mut self, node: u32, is_new: bool) -> Result<(), NoMemory> {
        let place = place_number(self.order.len())?;
        if is_new {
            self.segments.push(Segment {
                first: place,
                count: 0,
            })?;
        }
        let class = place_number(self.segments.len().saturating_sub(1))?;
        let segment = self.segment(class);
        self.set_segment(
            class,
            Segment {
                count: segment.count.saturating_add(1),
                ..segment
            },
        );
        set(&mut self.places, node, place);
        set(&mut self.classes, node, class);
        self.order.push(node)?;
        self.moved.push(node)?;
        Ok(())
    }

    fn segment(&self, class: u32) -> Segment {
        match self.segments.get(class as usize) {
            Some(segment) => *segment,
            None => Segment { first: 0, count: 0 },
        }
    }

    fn set_segment(&mut self, class: u32, segment: Segment) {
        let class = class as usize;
        if class < self.segments.len() {
            self.segments[class] = segment;
        }
    }

    /// The class of each node.
    pub(crate) fn into_classes(self) -> Vec<u32> {
        let Partition { classes, .. } = self;
        classes
    }

    /// Splits classes until nodes of one class have parts of equal classes. Each round but the last makes
    /// a class.
    pub(crate) fn refine(&mut self, uses: &Uses) -> Result<(), NoMemory> {
        for _ in 0..=self.order.len() {
            if self.moved.is_empty() {
                break;
            }
            let told = self.uses_of_moved(uses)?;
            self.split_by(&told)?;
        }
        Ok(())
    }

    /// Takes the nodes that have moved, and gives their uses by the numbers of the parts.
    fn uses_of_moved(&mut self, uses: &Uses) -> Result<Vec<Use>, NoMemory> {
        let mut list = Vec::new(self.alloc);
        for node in &self.moved {
            uses.add_to(*node, &mut list)?;
        }
        self.moved.clear();
        by_label(self.alloc, &list)
    }

    /// Splits each class by the classes that the parts of one number have, number by number.
    fn split_by(&mut self, uses: &[Use]) -> Result<(), NoMemory> {
        let mut batch = Vec::new(self.alloc);
        let mut label = 0u32;
        for at in uses {
            if at.label != label {
                self.split_batch(&mut batch)?;
                label = at.label;
            }
            batch.push(Dirty {
                class: item(&self.classes, at.user),
                target: item(&self.classes, at.part),
                node: at.user,
            })?;
        }
        self.split_batch(&mut batch)
    }

    /// Splits each class by the classes of the parts, and empties the list.
    fn split_batch(&mut self, batch: &mut Vec<Dirty>) -> Result<(), NoMemory> {
        batch.sort()?;
        let mut splitting = self.begin(0);
        let mut before = None;
        for at in batch.iter() {
            if before == Some(*at) {
                continue;
            }
            if at.class != splitting.class {
                self.end(&splitting)?;
                splitting = self.begin(at.class);
            }
            let begins = match before {
                Some(other) => other.class != at.class || other.target != at.target,
                None => true,
            };
            self.set_apart(&mut splitting, at.node, begins)?;
            before = Some(*at);
        }
        self.end(&splitting)?;
        batch.clear();
        Ok(())
    }

    fn begin(&self, class: u32) -> Splitting {
        Splitting {
            class,
            rest: self.segment(class),
            pieces: Vec::new(self.alloc),
        }
    }

    /// Moves a node of the rest into the piece in front of all others, or into a new piece.
    fn set_apart(
        &mut self,
        splitting: &mut Splitting,
        node: u32,
        begins: bool,
    ) -> Result<(), NoMemory> {
        let rest = splitting.rest;
        let count = rest.count.saturating_sub(1);
        let place = rest.first.saturating_add(count);
        self.swap(node, place);
        splitting.rest = Segment { count, ..rest };
        let before = if begins { None } else { splitting.pieces.pop() };
        let others = match before {
            Some(piece) => piece.count,
            None => 0,
        };
        splitting.pieces.push(Segment {
            first: place,
            count: others.saturating_add(1),
        })?;
        Ok(())
    }

    /// Puts a node at a place in the order, and the one that stood there at the node's own.
    fn swap(&mut self, node: u32, place: u32) {
        let other = item(&self.order, place);
        let from = item(&self.places, node);
        set(&mut self.order, from, other);
        set(&mut self.places, other, from);
        set(&mut self.order, place, node);
        set(&mut self.places, node, place);
    }

    /// The largest piece of a class keeps its number, and each other one becomes a class of its own.
    fn end(&mut self, splitting: &Splitting) -> Result<(), NoMemory> {
        let kept = largest(splitting.rest, &splitting.pieces);
        self.set_segment(splitting.class, kept);
        self.make_class(splitting.rest, kept)?;
        for piece in &splitting.pieces {
            self.make_class(*piece, kept)?;
        }
        Ok(())
    }

    /// Makes a class of a piece that has nodes, unless it is the one that is kept.
    fn make_class(&mut self, piece: Segment, kept: Segment) -> Result<(), NoMemory> {
        if piece.count == 0 || piece == kept {
            return Ok(());
        }
        let class = place_number(self.segments.len())?;
        self.segments.push(piece)?;
        for place in piece.first..piece.first.saturating_add(piece.count) {
            let node = item(&self.order, place);
            set(&mut self.classes, node, class);
            self.moved.push(node)?;
        }
        Ok(())
    }
}

fn largest(rest: Segment, pieces: &[Segment]) -> Segment {
    let mut largest = rest;
    for piece in pieces {
        if piece.count > largest.count {
            largest = *piece;
        }
    }
    largest
}

/// The uses by the numbers of the parts.
fn by_label(alloc: Global, uses: &[Use]) -> Result<Vec<Use>, NoMemory> {
    let mut sorted = Vec::new(alloc);
    for at in uses {
        sorted.push((at.label, *at))?;
    }
    sorted.sort()?;
    let mut list = Vec::new(alloc);
    for (_, at) in &sorted {
        list.push(*at)?;
    }
    Ok(list)
}
