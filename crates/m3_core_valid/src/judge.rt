use crate::tables::{Form, Heading, Tables, Variable};
use m3_base::NoMemory;
use m3_core::ExcDef;
use m3_types::TypeId;
use std::alloc::Global;

/// What the nodes of a procedure may name, and whether all that was judged so far is well formed.
#[derive(Clone, Copy)]
pub struct Judge<'j> {
    pub alloc: Global,
    forms: &'j [Form],
    signatures: &'j [TypeId],
    headings: &'j [Heading],
    variables: &'j [Variable],
    exceptions: &'j [ExcDef<'j>],
    globals: usize,
    texts: usize,
    values: usize,
    /// The procedure that is judged; None in front of all bodies.
    own: Option<Heading>,
    /// The loops around.
    pub loops: u32,
    is_good: bool,
    has_memory: bool,
}

impl<'j> Judge<'j> {
    /// A judge of a program, before any of its bodies.
    pub fn new(alloc: Global, tables: &'j Tables, exceptions: &'j [ExcDef<'j>]) -> Judge<'j> {
        Judge {
            alloc,
            forms: &tables.forms,
            signatures: &tables.signatures,
            headings: &tables.headings,
            variables: &tables.variables,
            exceptions,
            globals: tables.globals,
            texts: tables.texts,
            values: tables.values,
            own: None,
            loops: 0,
            is_good: true,
            has_memory: true,
        }
    }

    /// Whether all that was judged is well formed.
    pub fn verdict(&self) -> Result<bool, NoMemory> {
        if self.has_memory {
            Ok(self.is_good)
        } else {
            Err(NoMemory)
        }
    }

    /// Notes whether something is as it has to be.
    pub fn expect(&mut self, is_good: bool) {
        if !is_good {
            self.is_good = false;
        }
    }

    /// Notes whether something is as it has to be, if there was memory to tell.
    pub fn expect_told(&mut self, told: Result<bool, NoMemory>) {
        match told {
            Ok(is_good) => self.expect(is_good),
            Err(NoMemory) => self.has_memory = false,
        }
    }

    /// The form of a type.
    pub fn form(&self, t: TypeId) -> Form {
        match self.forms.get(t.0 as usize) {
            Some(form) => *form,
            None => Form::NoType,
        }
    }

    /// The form of a type, and of what reveals it fully where that is told.
    pub fn unveiled(&self, t: TypeId) -> Form {
        match self.form(t) {
            Form::Opaque(Some(full)) => self.form(full),
            form => form,
        }
    }

    /// Notes that something has to be a type.
    pub fn expect_type(&mut self, t: TypeId) {
        let is_type = !matches!(self.form(t), Form::NoType);
        self.expect(is_type);
    }

    /// Notes that what stands there has to be a type.
    pub fn expect_optional(&mut self, t: Option<TypeId>) {
        if let Some(t) = t {
            self.expect_type(t);
        }
    }

    /// Notes that each of a row has to be a type.
    pub fn expect_types(&mut self, types: &[TypeId]) {
        for t in types {
            self.expect_type(*t);
        }
    }

    /// How many fields a record type has.
    pub fn field_count(&self, record: TypeId) -> usize {
        match self.form(record) {
            Form::Record(fields) => fields,
            _ => 0,
        }
    }

    /// How many fields the part of an object type declares.
    pub fn object_field_count(&self, owner: TypeId) -> usize {
        match self.unveiled(owner) {
            Form::Object { fields, .. } => fields,
            _ => 0,
        }
    }

    /// How many fields the record behind a reference type has.
    pub fn referent_field_count(&self, made: TypeId) -> usize {
        match self.unveiled(made) {
            Form::RefTo(target) => self.field_count(target),
            _ => 0,
        }
    }

    /// The signature of a method that the part of an object type declares.
    pub fn signature_of(&self, owner: TypeId, method: u32) -> Option<TypeId> {
        match self.unveiled(owner) {
            Form::Object {
                first_method,
                methods,
                ..
            } if (method as usize) < methods => {
                let place = first_method.checked_add(method as usize)?;
                self.signatures.get(place).copied()
            }
            _ => None,
        }
    }

    /// Whether a type is one of arrays.
    pub fn is_array(&self, t: TypeId) -> bool {
        matches!(self.form(t), Form::FixedArray | Form::OpenArray(_))
    }

    /// Whether the values of a type can be followed: references and objects.
    pub fn is_reference(&self, t: TypeId) -> bool {
        matches!(
            self.form(t),
            Form::RefTo(_) | Form::Object { .. } | Form::Opaque(_) | Form::BuiltInObject
        )
    }

    /// Notes that NEW has to make cells of a type, with a size for each open dimension.
    pub fn expect_made(&mut self, made: TypeId, sizes: usize) {
        let dims = match self.unveiled(made) {
            Form::RefTo(target) => Some(self.open_dims(target)),
            Form::Object { .. } | Form::BuiltInObject | Form::Opaque(_) => Some(0),
            _ => None,
        };
        self.expect(dims == Some(sizes));
    }

    /// The dimensions of an open array type, and 0 for any other type.
    fn open_dims(&self, t: TypeId) -> usize {
        let mut at = t;
        for dims in 0..self.forms.len() {
            match self.form(at) {
                Form::OpenArray(element) => at = element,
                _ => return dims,
            }
        }
        self.forms.len()
    }

    /// The heading of a procedure.
    pub fn heading(&self, number: u32) -> Option<Heading> {
        self.headings.get(number as usize).copied()
    }

    /// Whether a procedure is judged.
    pub fn has_own(&self) -> bool {
        self.own.is_some()
    }

    /// Whether the procedure that is judged has a result, if one is.
    pub fn has_result(&self) -> Option<bool> {
        match self.own {
            Some(own) => Some(own.result.is_some()),
            None => None,
        }
    }

    /// Goes on with the body of the procedure at a place.
    pub fn enter(&mut self, place: usize) {
        self.own = self.headings.get(place).copied();
        self.loops = 0;
    }

    /// The procedure at a level around the one that is judged, or that itself.
    fn heading_at(&self, level: u32) -> Option<Heading> {
        let mut at = self.own?;
        for _ in 0..self.headings.len() {
            if at.level == level {
                return Some(at);
            }
            at = self.heading(at.outer?)?;
        }
        None
    }

    /// Whether the variable at a place of the procedure at a level stands for another place.
    pub fn is_alias(&self, level: u32, place: u32) -> Option<bool> {
        let heading = self.heading_at(level)?;
        if place as usize >= heading.variables {
            return None;
        }
        let place = heading.first_variable.checked_add(place as usize)?;
        match self.variables.get(place) {
            Some(variable) => Some(variable.is_alias),
            None => None,
        }
    }

    /// Notes that a place has to be that of a variable of the procedure itself.
    pub fn expect_own(&mut self, place: u32) {
        let count = match self.own {
            Some(own) => own.variables,
            None => 0,
        };
        self.expect((place as usize) < count);
    }

    /// Notes that a place, where one stands there, has to be that of a variable of its own.
    pub fn expect_optional_own(&mut self, place: Option<u32>) {
        if let Some(place) = place {
            self.expect_own(place);
        }
    }

    /// Notes that each of a row has to be the place of a variable of the procedure itself.
    pub fn expect_all_own(&mut self, places: &[u32]) {
        for place in places {
            self.expect_own(*place);
        }
    }

    /// Notes that a number has to be the place of a text of the program.
    pub fn expect_text(&mut self, text: u32) {
        self.expect((text as usize) < self.texts);
    }

    /// Notes that a number has to be the place of a constant of the program.
    pub fn expect_value(&mut self, value: u32) {
        self.expect((value as usize) < self.values);
    }

    /// Notes that a number has to be the place of a variable outside procedures.
    pub fn expect_global(&mut self, variable: u32) {
        self.expect((variable as usize) < self.globals);
    }

    /// Whether an exception has an argument, if there is one at the place.
    pub fn has_argument(&self, exception: u32) -> Option<bool> {
        match self.exceptions.get(exception as usize) {
            Some(raised) => Some(raised.argument.is_some()),
            None => None,
        }
    }

    /// Notes that a number has to be the place of an exception.
    pub fn expect_exception(&mut self, exception: u32) {
        let is_there = self.has_argument(exception).is_some();
        self.expect(is_there);
    }

    /// Notes that each of a row has to be the place of an exception.
    pub fn expect_exceptions(&mut self, exceptions: &[u32]) {
        for exception in exceptions {
            self.expect_exception(*exception);
        }
    }
}

/// Marks a place, and tells whether it is there and had no mark yet.
pub fn mark(marks: &mut [bool], place: u32) -> bool {
    match marks.get_mut(place as usize) {
        Some(is_marked) if !*is_marked => {
            *is_marked = true;
            true
        }
        _ => false,
    }
}
