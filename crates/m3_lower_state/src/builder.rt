use crate::pending::Pending;
use crate::places::{Location, Place};
use crate::values::Value;
use bumpalo::Bump;
use m3_base::{FaultKind, NoMemory, Pos};
use m3_lower_storage::{Storage, number_of};
use m3_mid::{Actual, Block, End, Kind, Operand, Proc, Raised, Shown, Slot};
use m3_types::TypeId;
use std::alloc::Global;

/// What holds at every place in a scope: which one it is, None where no scope around shows
/// variables, and the block that goes on where an exception is raised.
#[derive(Clone, Copy)]
pub struct Around {
    pub scope: Option<u32>,
    pub raised: u32,
}

/// A scope that shows variables: the one around it, and what it shows beside that one's. All that
/// is shown at its points is one row, which is made at the first of them.
#[derive(Clone, Copy)]
struct Scope<'m> {
    outer: Option<u32>,
    own: &'m [Shown],
    row: Option<&'m [Shown]>,
}

/// The slots of a value that is held there for a while, from the first to before the last.
#[derive(Clone, Copy)]
pub(crate) struct Buffer {
    pub(crate) first: u32,
    pub(crate) end: u32,
}

/// A temporary that holds the address of a part of a value, and the buffer of that value, by its
/// place among the buffers.
#[derive(Clone, Copy)]
struct Part {
    temp: u32,
    buffer: u32,
}

/// A procedure in the making. Blocks are sealed when their code is known; one that is reached from
/// behind is reserved and set once. Where memory runs out the builder has failed, and what it
/// makes from then on is given to nobody.
#[derive(Drop)]
pub struct Builder<'m, 's> {
    pub alloc: Global,
    pub arena: &'m Bump,
    pub storage: &'s Storage<'s>,
    /// The number of the procedure.
    pub number: u32,
    /// Its level.
    pub level: u32,
    blocks: Vec<Block<'m>>,
    temps: Vec<Kind>,
    slots: Vec<Slot>,
    /// The sizes of places that are open arrays.
    sizes: Vec<Operand>,
    /// What the chains that are planned and not put into code yet give, stage by stage.
    stages: Vec<Value>,
    scopes: Vec<Scope<'m>>,
    /// The values that slots hold for a while, by their slots.
    buffers: Vec<Buffer>,
    /// The addresses of parts of these values, by their temporaries.
    parts: Vec<Part>,
    /// How many slots hold variables; those behind them hold values for a while.
    pub named_slots: u32,
    /// The temporaries in which an exception travels.
    pub raised: Raised,
    has_failed: bool,
}

impl<'m, 's> Builder<'m, 's> {
    /// The procedure with a number, without any code yet.
    pub fn new(
        alloc: Global,
        arena: &'m Bump,
        storage: &'s Storage<'s>,
        number: u32,
    ) -> Builder<'m, 's> {
        Builder {
            alloc,
            arena,
            storage,
            number,
            level: storage.level(number),
            blocks: Vec::new(alloc),
            temps: Vec::new(alloc),
            slots: Vec::new(alloc),
            sizes: Vec::new(alloc),
            stages: Vec::new(alloc),
            scopes: Vec::new(alloc),
            buffers: Vec::new(alloc),
            parts: Vec::new(alloc),
            named_slots: storage.room(number).slots,
            raised: Raised {
                exception: 0,
                number: 0,
                tidy: 0,
            },
            has_failed: false,
        }
    }

    /// Memory ran out.
    pub fn fail(&mut self) {
        self.has_failed = true;
    }

    /// A new temporary.
    pub fn temp(&mut self, kind: Kind) -> u32 {
        let place = self.temps.len();
        if place >= u32::MAX as usize || self.temps.push(kind).is_err() {
            self.has_failed = true;
            return 0;
        }
        number_of(place)
    }

    /// So many new temporaries in a row, of which the first is told.
    pub fn temps(&mut self, kind: Kind, count: u32) -> u32 {
        let first = number_of(self.temps.len());
        for _ in 0..count {
            self.temp(kind);
        }
        first
    }

    /// The kind of a temporary.
    pub fn kind(&self, temp: u32) -> Kind {
        match self.temps.get(temp as usize) {
            Some(kind) => *kind,
            None => Kind::Number,
        }
    }

    /// A new slot.
    pub fn slot(&mut self, kind: Kind, is_shared: bool) -> u32 {
        let place = self.slots.len();
        if place >= u32::MAX as usize || self.slots.push(Slot { kind, is_shared }).is_err() {
            self.has_failed = true;
            return 0;
        }
        number_of(place)
    }

    /// Whether there are slots of variables other than the formals' words.
    pub fn has_slots(&self) -> bool {
        let room = self.storage.room(self.number);
        room.slots > room.formals
    }

    /// How many slots there are.
    pub fn slot_count(&self) -> u32 {
        number_of(self.slots.len())
    }

    /// The kind of a slot.
    pub fn slot_kind(&self, slot: u32) -> Kind {
        match self.slots.get(slot as usize) {
            Some(slot) => slot.kind,
            None => Kind::Number,
        }
    }

    /// Keeps the size of a dimension of an open array, and tells its place.
    pub fn size(&mut self, size: Operand) -> u32 {
        let place = self.sizes.len();
        if place >= u32::MAX as usize || self.sizes.push(size).is_err() {
            self.has_failed = true;
            return 0;
        }
        number_of(place)
    }

    /// The size that was kept at a place.
    pub fn size_at(&self, place: u32) -> Operand {
        match self.sizes.get(place as usize) {
            Some(size) => *size,
            None => Operand::Number(0),
        }
    }

    /// The place that the next size will have.
    pub fn next_size(&self) -> u32 {
        number_of(self.sizes.len())
    }

    /// Keeps what a stage of a chain gives.
    pub fn push_stage(&mut self, stage: Value) {
        if self.stages.push(stage).is_err() {
            self.has_failed = true;
        }
    }

    /// Takes the stage that was kept last.
    pub fn pop_stage(&mut self) -> Value {
        self.stages.pop().unwrap_or(Value::Nothing)
    }

    /// The stage that was kept last.
    pub fn top_stage(&self) -> Value {
        match self.stages.last() {
            Some(stage) => *stage,
            None => Value::Nothing,
        }
    }

    /// Whether the stage that was kept last is a word that is loaded into a temporary of its own.
    pub fn is_loaded(&self) -> bool {
        let last = self.stages.len().saturating_sub(1);
        let before = match self.stages.get(last.saturating_sub(1)) {
            Some(Value::At(place)) => !matches!(place.at, Location::Temps(_)),
            _ => false,
        };
        before && matches!(self.stages.get(last), Some(Value::Word(Operand::Temp(_))))
    }

    /// New slots for a value of a type, for a while.
    pub fn buffer(&mut self, t: TypeId) -> Place {
        let first = self.slot_count();
        self.add_value(t);
        self.hold(first);
        Place::plain(Location::Slots(first))
    }

    /// The slots from one on hold one value for a while. A value without words gets a slot too, so
    /// that no other value begins at the same one.
    pub fn hold(&mut self, first: u32) {
        if self.slot_count() == first {
            self.slot(Kind::Number, true);
        }
        let buffer = Buffer {
            first,
            end: self.slot_count(),
        };
        if self.buffers.push(buffer).is_err() {
            self.has_failed = true;
        }
    }

    /// A new temporary is to hold the address of a part of what is at a place.
    pub fn part_of(&mut self, temp: u32, place: Place) {
        let Some(buffer) = self.buffer_at(place) else {
            return;
        };
        if self.parts.push(Part { temp, buffer }).is_err() {
            self.has_failed = true;
        }
    }

    /// The slots of the value of which a place is a part, where slots hold that value for a while.
    pub(crate) fn buffer_of(&self, place: Place) -> Option<Buffer> {
        let buffer = self.buffer_at(place)?;
        self.buffers.get(buffer as usize).copied()
    }

    /// Whether a place is in slots that hold a value for a while.
    pub fn is_buffer(&self, place: Place) -> bool {
        match place.at {
            Location::Slots(slot) => self.buffer_with(slot).is_some(),
            Location::Temps(_) | Location::Globals(_) | Location::Address { .. } => false,
        }
    }

    /// The buffer of the value of which a place is a part.
    fn buffer_at(&self, place: Place) -> Option<u32> {
        match place.at {
            Location::Slots(slot) => self.buffer_with(slot),
            Location::Address { temp, .. } => self.buffer_behind(temp),
            Location::Temps(_) | Location::Globals(_) => None,
        }
    }

    /// The buffer that has a slot, found by halving.
    fn buffer_with(&self, slot: u32) -> Option<u32> {
        let mut low = 0usize;
        let mut high = self.buffers.len();
        for _ in 0..usize::BITS {
            let middle = low.saturating_add(high.saturating_sub(low) / 2);
            match self.buffers.get(middle) {
                Some(buffer) if buffer.first <= slot => low = middle,
                _ => high = middle,
            }
        }
        match self.buffers.get(low) {
            Some(buffer) if buffer.first <= slot && slot < buffer.end => u32::try_from(low).ok(),
            _ => None,
        }
    }

    /// The buffer into which the address in a temporary leads, found by halving.
    fn buffer_behind(&self, temp: u32) -> Option<u32> {
        let mut low = 0usize;
        let mut high = self.parts.len();
        for _ in 0..usize::BITS {
            let middle = low.saturating_add(high.saturating_sub(low) / 2);
            match self.parts.get(middle) {
                Some(part) if part.temp <= temp => low = middle,
                _ => high = middle,
            }
        }
        match self.parts.get(low) {
            Some(part) if part.temp == temp => Some(part.buffer),
            _ => None,
        }
    }

    /// New slots for a value of a type.
    pub fn add_value(&mut self, t: TypeId) {
        let shape = match self.storage.shape(self.alloc, t) {
            Ok(shape) => shape,
            Err(NoMemory) => {
                self.has_failed = true;
                return;
            }
        };
        let mut at = 0u64;
        for pointer in &shape.pointers {
            self.add_numbers(pointer.saturating_sub(at));
            self.slot(Kind::Tidy, true);
            at = pointer.saturating_add(1);
        }
        self.add_numbers(shape.words.saturating_sub(at));
    }

    /// New slots for a result of several words that are no pointers.
    pub fn result_slots(&mut self, count: u32) -> u32 {
        let first = self.slot_count();
        self.add_numbers(u64::from(count));
        first
    }

    fn add_numbers(&mut self, count: u64) {
        for _ in 0..count {
            self.slot(Kind::Number, true);
        }
    }

    /// A row of actuals in the arena.
    pub fn actual_row(&mut self, row: &[Actual]) -> &'m [Actual] {
        self.row(row)
    }

    /// A row of operands in the arena.
    pub fn operand_row(&mut self, row: &[Operand]) -> &'m [Operand] {
        self.row(row)
    }

    /// A scope inside another, that shows more variables. The block for exceptions is the same.
    pub fn scope(&mut self, around: Around, own: &[Shown]) -> Around {
        let scope = Scope {
            outer: around.scope,
            own: self.row(own),
            row: None,
        };
        let place = self.scopes.len();
        if place >= u32::MAX as usize || self.scopes.push(scope).is_err() {
            self.has_failed = true;
        }
        Around {
            scope: Some(number_of(place)),
            raised: around.raised,
        }
    }

    /// All variables that are shown at the points of a scope, those of the outermost scope first.
    pub fn shown(&mut self, around: Around) -> &'m [Shown] {
        let Some(place) = around.scope else {
            return &[];
        };
        let Some(scope) = self.scopes.get(place as usize).copied() else {
            return &[];
        };
        if let Some(row) = scope.row {
            return row;
        }
        let all = self.all_shown(place);
        let row = self.row(all.as_slice());
        let scope = Scope {
            row: Some(row),
            ..scope
        };
        set_item(&mut self.scopes, place as usize, scope);
        row
    }

    /// The variables of a scope and of those around it, the outermost first.
    fn all_shown(&mut self, place: u32) -> Vec<Shown> {
        let mut all = Vec::new(self.alloc);
        let mut at = Some(place);
        for _ in 0..self.scopes.len() {
            let Some(place) = at else {
                break;
            };
            let Some(scope) = self.scopes.get(place as usize).copied() else {
                break;
            };
            if add_backward(scope.own, &mut all).is_err() {
                self.has_failed = true;
            }
            at = scope.outer;
        }
        all.reverse();
        all
    }

    fn row<T: Copy>(&mut self, items: &[T]) -> &'m [T] {
        match kept(self.arena, items) {
            Some(row) => row,
            None => {
                self.has_failed = true;
                &[]
            }
        }
    }

    fn block(&mut self, code: Pending<'m>) -> Block<'m> {
        let Pending {
            mut ops,
            end,
            is_whole,
        } = code;
        if !is_whole {
            self.has_failed = true;
        }
        ops.reverse();
        let ops = self.row(ops.as_slice());
        Block { ops, end }
    }

    /// Makes a block of the code, unless it only goes on at another one, which is told then.
    pub fn seal(&mut self, code: Pending<'m>) -> u32 {
        // Code that isn't whole may have lost its operations.
        let is_bare = code.is_whole && code.ops.is_empty();
        if let (true, End::Goto(block)) = (is_bare, code.end) {
            return block;
        }
        let block = self.block(code);
        self.add(block)
    }

    fn add(&mut self, block: Block<'m>) -> u32 {
        let place = self.blocks.len();
        if place >= u32::MAX as usize || self.blocks.push(block).is_err() {
            self.has_failed = true;
            return 0;
        }
        number_of(place)
    }

    /// A block that is set later.
    pub fn reserve(&mut self) -> u32 {
        let place = number_of(self.blocks.len());
        self.add(Block {
            ops: &[],
            end: End::Goto(place),
        })
    }

    /// Makes a block that was reserved.
    pub fn set(&mut self, place: u32, code: Pending<'m>) {
        let block = self.block(code);
        set_item(&mut self.blocks, place as usize, block);
    }

    /// Code that goes on at a block.
    pub fn goto(&self, block: u32) -> Pending<'m> {
        Pending::bare(self.alloc, End::Goto(block))
    }

    /// Code that ends with a fault.
    pub fn fault(&self, kind: FaultKind, pos: Pos) -> Pending<'m> {
        Pending::bare(self.alloc, End::FaultAt { kind, pos })
    }

    /// The whole procedure, which begins with this code.
    pub fn finish(mut self, code: Pending<'m>, formals: u32) -> Result<Proc<'m>, NoMemory> {
        let block = self.block(code);
        let start = self.add(block);
        let Builder {
            arena,
            blocks,
            temps,
            slots,
            has_failed,
            ..
        } = self;
        let temps = kept(arena, temps.as_slice());
        let slots = kept(arena, slots.as_slice());
        let blocks = kept(arena, blocks.as_slice());
        match (temps, slots, blocks) {
            (Some(temps), Some(slots), Some(blocks)) if !has_failed => Ok(Proc {
                temps,
                slots,
                formals,
                blocks,
                start,
                loops: &[],
            }),
            _ => Err(NoMemory),
        }
    }
}

/// The items as a row in the arena; none where memory ran out.
fn kept<'m, T: Copy>(arena: &'m Bump, items: &[T]) -> Option<&'m [T]> {
    match arena.try_alloc_slice_copy(items) {
        Ok(row) => Some(row),
        Err(_) => None,
    }
}

/// Adds the variables of a row, the last one first.
fn add_backward(row: &[Shown], all: &mut Vec<Shown>) -> Result<(), NoMemory> {
    for shown in row.iter().rev() {
        all.push(*shown)?;
    }
    Ok(())
}

/// Sets the item at a place of a list, where it is there.
fn set_item<T: Drop>(items: &mut Vec<T>, place: usize, item: T) {
    if place < items.len() {
        items[place] = item;
    }
}
