ghost use Rattle.std.specs.Prelude.{◌≡◌, ◌↔◌, length, IfOk, IsTrue};
ghost use Rattle.m3_types_sizes.specs.Sizes.{IsRight, AreSized, IsFull, IsShallow, IsSized, HasSize, AreWords};

use crate::words::{known, table_of_words};
use m3_base::NoMemory;
use m3_types::{TypeGraph, TypeId};
use std::alloc::Global;

/// The types of a program when all of them are there, with the words of each that has a size.
#[derive(Drop)]
pub struct SizedTypes<'a> {
    pub graph: TypeGraph<'a>,
    words: Vec<Option<u64>>,
    ghost alike: { length words.items ≡ length graph.nodes.items },
    ghost right: { IsRight graph.nodes.items words.items },
    ghost sound: { AreSized graph.nodes.items words.items },
    ghost full: { IsFull graph.nodes.items words.items },
    pub ghost shallow: { IsShallow graph.nodes.items },
}

impl<'a> SizedTypes<'a> {
    /// The types of a graph, with their words, which are told once.
    pub fn measure(alloc: Global, graph: TypeGraph<'a>) -> Result<SizedTypes<'a>, NoMemory>
        ensures nodes { IfOk result (λ types. types.graph.nodes.items ≡ graph.entry.nodes.items) }
        ensures reveals { IfOk result (λ types. types.graph.reveals.items ≡ graph.entry.reveals.items) }
    {
        let words = table_of_words(alloc, &graph.nodes)?;
        Ok(SizedTypes { graph, words })
    }

    /// Whether a value of the type has a size: the type doesn't contain itself, holds no open array,
    /// and neither it nor a part of it takes more than 1,000,000,000 words.
    pub fn has_size(&self, t: TypeId) -> bool
        ensures { IsTrue result ↔ HasSize self.now.graph.nodes.items t.0 }
    {
        known(&self.words, t.0 as usize).is_some()
    }

    /// The words of a value: 1 for an ordinal or a reference, 2 for a procedure, a bit for each member
    /// of a set's base and at least a word, and for a record or fixed array the sum of its parts.
    pub fn words_of(&self, t: TypeId) -> u64
        requires { HasSize self.now.graph.nodes.items t.0 }
        ensures words { AreWords self.now.graph.nodes.items t.0 result }
        // a type that doesn't contain itself is nested less deep than there are types
        ensures shallow { IsSized self.now.graph.nodes.items (length self.now.graph.nodes.items) t.0 }
    {
        known(&self.words, t.0 as usize).unwrap_or(0)
    }
}
