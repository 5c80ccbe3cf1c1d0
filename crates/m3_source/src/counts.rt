use crate::frames::{known_words, value_words};
use m3_core::{CoreExpr, Value};
use m3_types::TypeId;
use m3_types_sizes::SizedTypes;

/// What stands in a procedure's body: its nodes, the words of the values that its calls,
/// constructors and bindings handle, its points, the words of its constants, and the types of cells
/// that it makes.
#[derive(Drop)]
pub struct Counts<'c, 'a> {
    pub types: &'c SizedTypes<'a>,
    values: &'c [Value<'a>],
    /// For each type the parts of a cell or value of it.
    parts: &'c [u64],
    pub nodes: u64,
    pub words: u64,
    pub points: u64,
    pub constants: u128,
    pub made: u128,
}

impl<'c, 'a> Counts<'c, 'a> {
    pub fn new(
        types: &'c SizedTypes<'a>,
        values: &'c [Value<'a>],
        parts: &'c [u64],
    ) -> Counts<'c, 'a> {
        Counts {
            types,
            values,
            parts,
            nodes: 0,
            words: 0,
            points: 0,
            constants: 0,
            made: 0,
        }
    }

    pub fn add_node(&mut self) {
        self.nodes = self.nodes.saturating_add(1);
    }

    pub fn add_nodes(&mut self, count: usize) {
        self.nodes = self.nodes.saturating_add(count as u64);
    }

    pub fn add_point(&mut self) {
        self.points = self.points.saturating_add(1);
    }

    /// The words of a value twice, as a call or constructor handles it.
    pub fn add_words(&mut self, words: u64) {
        self.words = self.words.saturating_add(words.saturating_mul(2));
    }

    pub fn add_value(&mut self, kind: Option<TypeId>) {
        let words = match kind {
            Some(kind) => value_words(self.types, kind),
            None => 0,
        };
        self.add_words(words);
    }

    /// The node of a set, array or record, with its value.
    pub fn add_constructor(&mut self, e: &CoreExpr<'_>) {
        self.add_node();
        let words = known_words(self.types, self.values, e);
        self.add_words(words);
    }

    /// The node of a constant, with its words.
    pub fn add_constant(&mut self, e: &CoreExpr<'_>) {
        self.add_node();
        let words = known_words(self.types, self.values, e);
        self.constants = self.constants.saturating_add(u128::from(words));
    }

    /// The node of a NEW, with the parts of the cell that it makes.
    pub fn add_made(&mut self, made: TypeId) {
        self.add_node();
        self.add_point();
        let parts = self.parts.get(made.0 as usize).copied().unwrap_or(0);
        self.made = self.made.saturating_add(u128::from(parts));
    }
}
