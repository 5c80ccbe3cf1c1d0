use m3_base::Pos;
use m3_syntax::{ConstDecl, ExceptionDecl, Init, Revelation, Signature, TypeDecl};

/// What declares an entity, or reveals an opaque type. It stands in a list beside the entities, since
/// most of what asks for an entity doesn't look at its text.
#[derive(Clone, Copy)]
pub enum Declaration<'a> {
    Constant(&'a ConstDecl<'a>),
    Type(&'a TypeDecl<'a>),
    Exception(&'a ExceptionDecl<'a>),
    /// A variable, by the type and the value that its row gives.
    Variable(&'a Init<'a>),
    /// A formal of a procedure, by what its row gives, with the place of the procedure's name.
    Formal {
        init: &'a Init<'a>,
        procedure: Pos,
        signature: &'a Signature<'a>,
    },
    /// A procedure, by the place where its declaration begins.
    Procedure {
        pos: Pos,
        signature: &'a Signature<'a>,
    },
    Reveal(&'a Revelation<'a>),
}
