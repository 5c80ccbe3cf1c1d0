use m3_base::NoMemory;

/// Whether there was memory enough. A walk goes on where there wasn't, and asks for that at its
/// end, since a step that can end it costs more than one that can't.
#[derive(Clone, Copy)]
pub struct Memory {
    is_short: bool,
}

impl Memory {
    pub fn new() -> Memory {
        Memory { is_short: false }
    }

    /// Refuses where memory was wanting.
    pub fn check(&self) -> Result<(), NoMemory> {
        if self.is_short { Err(NoMemory) } else { Ok(()) }
    }

    /// Notes whether there was memory for something.
    pub fn note(&mut self, was_there: bool) {
        self.is_short |= !was_there;
    }

    /// What was made, where there was memory for it.
    pub fn made<T: Copy>(&mut self, made: Result<T, NoMemory>) -> Option<T> {
        match made {
            Ok(made) => Some(made),
            Err(NoMemory) => {
                self.is_short = true;
                None
            }
        }
    }

    /// What was found, where it wasn't refused.
    pub fn found<T: Copy>(&mut self, found: Result<Option<T>, NoMemory>) -> Option<T> {
        match found {
            Ok(found) => found,
            Err(NoMemory) => {
                self.is_short = true;
                None
            }
        }
    }

    /// A row, empty where memory was wanting.
    pub fn row<'a, T: Copy>(&mut self, row: Result<&'a [T], NoMemory>) -> &'a [T] {
        match row {
            Ok(row) => row,
            Err(NoMemory) => {
                self.is_short = true;
                &[]
            }
        }
    }
}
