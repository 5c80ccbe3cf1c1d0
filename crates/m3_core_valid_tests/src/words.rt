use crate::types::{
    FIXED, FUNCTION, INTEGER, NONE, OBJECT, OPEN, OPEN_REFERENCE, PLAIN, RECORD, REFERENCE, ROOT,
    ROWS,
};
use m3_types::TypeId;

/// The words of a form, from the first one on that wasn't taken.
#[derive(Clone, Copy)]
pub struct Words<'t> {
    rest: &'t str,
}

impl<'t> Words<'t> {
    pub fn of(text: &'t str) -> Words<'t> {
        Words { rest: text }
    }

    /// Takes a word: the empty one where there is none.
    pub fn take(&mut self) -> &'t str {
        let (word, rest) = self.rest.split_once(" ").unwrap_or((self.rest, ""));
        self.rest = rest;
        word
    }

    /// Takes a number, if there is one.
    pub fn take_optional(&mut self) -> Option<u32> {
        self.take().parse::<u32>().ok()
    }

    /// Takes a number: one past all places where there is none.
    pub fn take_number(&mut self) -> u32 {
        self.take_optional().unwrap_or(1000)
    }

    /// Takes the name of a type.
    pub fn take_type(&mut self) -> TypeId {
        type_named(self.take())
    }
}

/// The type of a name: one that no program has where it is none.
fn type_named(name: &str) -> TypeId {
    match name {
        "INTEGER" => INTEGER,
        "plain" => PLAIN,
        "record" => RECORD,
        "reference" => REFERENCE,
        "open" => OPEN,
        "open-reference" => OPEN_REFERENCE,
        "function" => FUNCTION,
        "ROOT" => ROOT,
        "object" => OBJECT,
        "rows" => ROWS,
        "fixed" => FIXED,
        _ => NONE,
    }
}
