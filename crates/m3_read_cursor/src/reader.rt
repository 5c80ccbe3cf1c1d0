ghost use Rattle.std.specs.Prelude.{◌≡◌, ◌+◌, ◌<◌, ◌≤◌, ◌++◌, [], ◌∷◌, length};
ghost use Rattle.std.specs.Prelude.{IsTrue, IsFalse, IfSome, IfNone, OnSome, IsSome};
ghost use Rattle.m3_syntax.specs.declared.tokens.TokenKind.{TokenKind};
ghost use Rattle.m3_read_grammar.specs.Tokens.{IsAt, IsToken, IsWritten, IsWord, IsSign, IsName};
ghost use Rattle.m3_read_grammar.specs.Tokens.{first_kind};
ghost use Rattle.m3_read_cursor.specs.Readers.{Follows, Reads};

use crate::stops::{Stop, Why};
use bumpalo::Bump;
use m3_base::Pos;
use m3_read_grammar::{is_sign, is_word};
use m3_syntax::{Lexed, Name, Sign, Token, TokenKind, Word};
use std::alloc::Global;

/// Reads the tokens of a file from the first to the last. It keeps the first error, and stands at
/// the end of the tokens from then on, where nothing more is taken; so whoever reads goes on as
/// if nothing had happened, and asks at the end by `stop`.
pub struct Reader<'t, 'a> {
    /// Where rows are put together.
    pub alloc: Global,
    /// Where what is read is kept.
    pub arena: &'a Bump,
    rest: &'t [Token<'a>],
    end: Pos,
    stop: Option<Stop>,
    /// How many tokens were left at the first closing name that differs from the name that it
    /// closes.
    wrong_closing: Option<usize>,
}

impl Drop for Reader<'_, '_> {
    fn drop(self) {
        let Reader {
            alloc: _,
            arena: _,
            rest: _,
            end: _,
            stop: _,
            wrong_closing: _,
        } = self;
    }
}

impl<'t, 'a> Reader<'t, 'a> {
    /// The reader at the first token of a file. What is read goes into the arena.
    pub fn new(alloc: Global, arena: &'a Bump, lexed: &'t Lexed<'a>) -> Reader<'t, 'a>
        ensures { result.rest.now ≡ lexed.now.tokens.items }
    {
        Reader {
            alloc,
            arena,
            rest: lexed.tokens.as_slice(),
            end: lexed.end,
            stop: None,
            wrong_closing: None,
        }
    }

    /// The first error, if there was one.
    pub fn stop(&self) -> Option<Stop>
        ensures { result ≡ self.now.stop }
    {
        self.stop
    }

    /// How many tokens were left at the first closing name that differs from the name that it
    /// closes, if one does.
    pub fn wrong_closing(&self) -> Option<usize>
        ensures { result ≡ self.now.wrong_closing }
    {
        self.wrong_closing
    }

    /// What the token here is, or None at the end.
    pub fn kind(&self) -> Option<TokenKind>
        ensures { result ≡ first_kind self.now.rest.now }
    {
        match self.rest {
            [] => None,
            [token, ..] => Some(token.kind),
        }
    }

    /// What the token behind the one here is, or None where there is none.
    pub fn next_kind(&self) -> Option<TokenKind> {
        match self.rest {
            [] | [_] => None,
            [_, token, ..] => Some(token.kind),
        }
    }

    /// The place of the token here, or of the end of the file.
    pub fn pos(&self) -> Pos
        ensures { IsAt result self.now.rest.now }
    {
        match self.rest {
            [] => self.end,
            [token, ..] => token.pos,
        }
    }

    /// How the token here is written; nothing at the end.
    fn text(&self) -> &'a [u8]
        ensures { IsWritten result.now self.now.rest.now }
    {
        match self.rest {
            [] => &[],
            [token, ..] => token.text,
        }
    }

    pub fn is_word(&self, word: Word) -> bool
        ensures { IsTrue result → first_kind self.now.rest.now ≡ Some (TokenKind.Keyword word) }
    {
        match self.kind() {
            Some(kind) => is_word(kind, word),
            None => false,
        }
    }

    pub fn is_sign(&self, sign: Sign) -> bool
        ensures { IsTrue result → first_kind self.now.rest.now ≡ Some (TokenKind.Symbol sign) }
    {
        match self.kind() {
            Some(kind) => is_sign(kind, sign),
            None => false,
        }
    }

    pub fn is_name(&self) -> bool
        ensures { IsTrue result → first_kind self.now.rest.now ≡ Some TokenKind.Ident }
    {
        matches!(self.kind(), Some(TokenKind::Ident))
    }

    /// Goes past the token here, if there is one.
    pub fn step(&mut self)
        ensures follows { Follows self.old self.new }
        ensures past { (kind : TokenKind) → first_kind self.old.rest.now ≡ Some kind
            → length self.new.rest.now < length self.old.rest.now }
        ensures reads { (kind : TokenKind) → first_kind self.old.rest.now ≡ Some kind
            → IsToken kind self.old.rest.now self.new.rest.now }
    {
        if let [_, rest @ ..] = self.rest {
            self.rest = rest;
        }
    }

    /// Goes past the token here, if it is this keyword, and tells whether it is.
    pub fn skip_word(&mut self, word: Word) -> bool
        ensures follows { Follows self.old self.new }
        ensures past { IsTrue result → length self.new.rest.now < length self.old.rest.now }
        ensures reads { IsTrue result → IsWord word self.old.rest.now self.new.rest.now }
        ensures stays { IsFalse result → self.new ≡ self.old }
    {
        let is_here = self.is_word(word);
        if is_here {
            self.step();
        }
        is_here
    }

    /// Goes past the token here, if it is this sign, and tells whether it is.
    pub fn skip_sign(&mut self, sign: Sign) -> bool
        ensures follows { Follows self.old self.new }
        ensures past { IsTrue result → length self.new.rest.now < length self.old.rest.now }
        ensures reads { IsTrue result → IsSign sign self.old.rest.now self.new.rest.now }
        ensures stays { IsFalse result → self.new ≡ self.old }
    {
        let is_here = self.is_sign(sign);
        if is_here {
            self.step();
        }
        is_here
    }

    /// Goes past the token here, which has to be this keyword, and gives its place.
    pub fn take_word(&mut self, word: Word) -> Pos
        ensures follows { Follows self.old self.new }
        ensures reads { Reads self.old self.new (IsWord word) }
        ensures place { IsAt result self.old.rest.now }
    {
        let pos = self.pos();
        if !self.skip_word(word) {
            self.unexpected();
        }
        pos
    }

    /// Goes past the token here, which has to be this sign, and gives its place.
    pub fn take_sign(&mut self, sign: Sign) -> Pos
        ensures follows { Follows self.old self.new }
        ensures reads { Reads self.old self.new (IsSign sign) }
        ensures place { IsAt result self.old.rest.now }
    {
        let pos = self.pos();
        if !self.skip_sign(sign) {
            self.unexpected();
        }
        pos
    }

    /// Goes past the token here, which has to be an identifier, and gives it.
    pub fn take_name(&mut self) -> Name<'a>
        ensures follows { Follows self.old self.new }
        ensures reads { Reads self.old self.new (λ before after. IsName before after result) }
    {
        let pos = self.pos();
        let text = self.text();
        if self.is_name() {
            self.step();
        } else {
            self.unexpected();
        }
        Name { text, pos }
    }

    /// Goes past the token here, which has to be an identifier and is to be the same as a name,
    /// and gives it. The first that differs is kept.
    pub fn take_closing(&mut self, name: &Name<'a>) -> Name<'a>
        ensures follows { Follows self.old self.new }
        ensures reads { Reads self.old self.new (λ before after. IsName before after result) }
        ensures same { self.new.wrong_closing ≡ None → result.text.now ≡ name.now.text.now }
    {
        let left = self.rest.len();
        let closing = self.take_name();
        if closing.text != name.text && self.wrong_closing.is_none() {
            self.wrong_closing = Some(left);
        }
        closing
    }

    /// Goes past the token here, which has to be a text literal, and gives it as it is written.
    pub fn take_text(&mut self) -> &'a [u8]
        ensures follows { Follows self.old self.new }
        ensures reads { Reads self.old self.new (IsToken TokenKind.TextLit) }
        ensures written { IsWritten result.now self.old.rest.now }
    {
        let text = self.text();
        if self.kind() == Some(TokenKind::TextLit) {
            self.step();
        } else {
            self.unexpected();
        }
        text
    }

    /// Keeps an error, if it is the first, and goes to the end.
    fn fail(&mut self, why: Why)
        ensures follows { Follows self.old self.new }
        ensures stopped { IsSome self.new.stop }
    {
        if self.stop.is_none() {
            self.stop = Some(Stop {
                why,
                left: self.rest.len(),
            });
        }
        self.rest = &[];
    }

    /// Refuses the token here, which may not stand here, or the end of the file, which comes too
    /// early.
    pub fn unexpected(&mut self)
        ensures follows { Follows self.old self.new }
        ensures stopped { IsSome self.new.stop }
    {
        self.fail(Why::Unexpected);
    }

    /// Refuses the token here, which lies inside too many constructs.
    pub fn too_deep(&mut self)
        ensures follows { Follows self.old self.new }
        ensures stopped { IsSome self.new.stop }
    {
        self.fail(Why::TooDeep);
    }

    /// The room inside a construct that the token here opens, given the room around it: how many
    /// constructs may still open. None where there is no room, and the token lies too deep.
    pub fn inside(&mut self, room: u32) -> Option<u32>
        ensures follows { Follows self.old self.new }
        ensures less { IfSome result (λ r. r + 1 ≡ room) }
        ensures stays { OnSome result (self.new ≡ self.old) }
        ensures stopped { IfNone result (IsSome self.new.stop) }
    {
        if room == 0 {
            self.too_deep();
            None
        } else {
            Some(room - 1)
        }
    }

    /// Puts an item behind others.
    pub fn put<T: Copy>(&mut self, items: &mut Vec<T>, item: T)
        ensures follows { Follows self.old self.new }
        ensures reads { Reads self.old self.new (λ before after. after ≡ before) }
        ensures items { self.new.stop ≡ None → items.new.items ≡ items.old.items ++ item ∷ [] }
    {
        if items.push(item).is_err() {
            self.fail(Why::NoMemory);
        }
    }

    /// The row of no items.
    pub fn no_items<T>(&self) -> &'a [T]
        ensures { result.now ≡ [] }
    {
        &[]
    }

    /// Keeps a row of items.
    pub fn row<T: Copy>(&mut self, items: Vec<T>) -> &'a [T]
        ensures follows { Follows self.old self.new }
        ensures reads { Reads self.old self.new (λ before after. after ≡ before) }
        ensures items { self.new.stop ≡ None → result.now ≡ items.items }
    {
        if items.is_empty() {
            return &[];
        }
        match self.arena.try_alloc_slice_copy(items.as_slice()) {
            Ok(row) => &*row,
            Err(_) => {
                self.fail(Why::NoMemory);
                &[]
            }
        }
    }

    /// Keeps a node. Where there is no memory for it, a spare one stands for it.
    pub fn node<T: Copy>(&mut self, node: T, spare: &'a T) -> &'a T
        ensures follows { Follows self.old self.new }
        ensures reads { Reads self.old self.new (λ before after. after ≡ before) }
        ensures kept { self.new.stop ≡ None → result.now ≡ node }
    {
        match self.arena.try_alloc(node) {
            Ok(kept) => &*kept,
            Err(_) => {
                self.fail(Why::NoMemory);
                spare
            }
        }
    }
}
