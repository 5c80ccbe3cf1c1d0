use m3_base::Pos;
use m3_syntax::{Name, Qualid};
use std::alloc::{AllocError, Global};

/// The number of the file that every text is read as.
pub const FILE: u32 = 3;

/// A text of words with one space between two, and perhaps the places in the source. Where memory
/// runs out, the rest of the text is lost, and the end tells so.
#[derive(Drop)]
pub struct Sheet {
    alloc: Global,
    text: Vec<u8>,
    has_places: bool,
    is_short: bool,
}

impl Sheet {
    pub fn new(alloc: Global, has_places: bool) -> Sheet {
        Sheet {
            alloc,
            text: Vec::new(alloc),
            has_places,
            is_short: false,
        }
    }

    /// The whole text.
    pub fn finish(self) -> Result<Vec<u8>, AllocError> {
        if self.is_short {
            Err(AllocError)
        } else {
            Ok(self.text)
        }
    }

    fn put(&mut self, bytes: &[u8]) {
        if self.text.extend_from_slice(bytes).is_err() {
            self.is_short = true;
        }
    }

    /// A word, behind a space where one is due.
    pub fn word(&mut self, word: &[u8]) {
        match self.text.last() {
            None | Some(b'(') => {}
            Some(_) => self.put(b" "),
        }
        self.put(word);
    }

    /// An opening parenthesis with the word that begins a list.
    pub fn begin(&mut self, head: &[u8]) {
        self.word(b"(");
        self.put(head);
    }

    /// The same, with the place of what the list shows.
    pub fn open(&mut self, head: &[u8], pos: Pos) {
        self.begin(head);
        self.place(pos);
    }

    pub fn close(&mut self) {
        self.put(b")");
    }

    /// A word that stands at a place.
    pub fn sign(&mut self, word: &[u8], pos: Pos) {
        self.word(word);
        self.place(pos);
    }

    /// A word that is shown only where places are, for its place.
    pub fn mark(&mut self, word: &[u8], pos: Pos) {
        if self.has_places {
            self.sign(word, pos);
        }
    }

    pub fn number(&mut self, before: &[u8], value: i64, pos: Pos) {
        self.word(before);
        match format!(in self.alloc; "{value}") {
            Ok(digits) => self.put(digits.as_bytes()),
            Err(_) => self.is_short = true,
        }
        self.place(pos);
    }

    pub fn name(&mut self, name: &Name) {
        self.sign(name.text, name.pos);
    }

    pub fn member(&mut self, name: &Name) {
        self.word(b".");
        self.put(name.text);
        self.place(name.pos);
    }

    pub fn names(&mut self, names: &[Name]) {
        for name in names {
            self.name(name);
        }
    }

    pub fn qualid(&mut self, qualid: &Qualid) {
        self.name(&qualid.first);
        if let Some(second) = &qualid.second {
            self.put(b".");
            self.put(second.text);
            self.place(second.pos);
        }
    }

    pub fn qualids(&mut self, qualids: &[Qualid]) {
        for qualid in qualids {
            self.qualid(qualid);
        }
    }

    /// A name in parentheses, where there is one.
    pub fn argument(&mut self, argument: &Option<Name>) {
        if let Some(name) = argument {
            self.begin(b"");
            self.name(name);
            self.close();
        }
    }

    fn place(&mut self, pos: Pos) {
        if !self.has_places {
            return;
        }
        let Pos { file, line, col } = pos;
        match format!(in self.alloc; "@{line}:{col}") {
            Ok(place) => self.put(place.as_bytes()),
            Err(_) => self.is_short = true,
        }
        if file != FILE {
            self.put(b" of another file");
        }
    }
}
