ghost use Rattle.std.specs.Prelude.{◌≡◌, ◌<◌, ◌≤◌, IfOk, IfErr, OnOk, OnSome, None, List, length};
ghost use Rattle.m3_syntax.specs.declared.tokens.Token.{Token};
ghost use Rattle.m3_read_cursor.specs.Readers.{Follows, IsRest};
ghost use Rattle.m3_parser.specs.Places.{HasPlaces};
ghost use Rattle.m3_read_cursor.specs.Refusals.{IsRefusal};

use bumpalo::Bump;
use m3_base::{NoMemory, Refused};
use m3_read_cursor::{
    FirstWords, Reader, closing_name, counted, name_list, names_between, refusal_of, unit_heading,
};
use m3_read_statements::{block, declaration_list};
use m3_syntax::{Block, Import, ImportItem, Kept, Lexed, Name, Sign, Unit, UnitKind, Word};
use std::alloc::Global;

/// How many constructs may be open at a place.
const MAX_OPEN: u32 = 200;

/// The unit of a file (the report, section 2.5), given its tokens. Its names and texts borrow
/// those of the tokens, and its tree stands in the arena.
///
/// An `Err` is the first broken rule of 10 to 14: of phase 2, with its place, and with the file
/// of `lexed.end` as its unit. Rule 12 is judged only where no other is broken. Want of memory is
/// the other `Err`.
pub fn parse<'a>(alloc: Global, arena: &'a Bump, lexed: &Lexed<'a>) -> Result<Unit<'a>, Refused>
    ensures tokens { IfOk result (λ unit. unit.tokens ≡ length lexed.now.tokens.items) }
    ensures within_limit { OnOk result (length lexed.now.tokens.items ≤ 500000) }
    ensures places { IfOk result (HasPlaces lexed.now.tokens.items) }
    ensures closed { IfOk result (λ unit. unit.closing.text.now ≡ unit.name.text.now) }
    ensures refused { IfErr result (IsRefusal lexed.now.end lexed.now.tokens.items) }
{
    let mut reader = Reader::new(alloc, arena, lexed);
    let heading = unit_heading(&mut reader);
    let kind = unit_kind(&mut reader, heading.words);
    let imports = own_imports(&mut reader, &kind);
    let block = own_block(&mut reader, &kind);
    let closing = closing_name(&mut reader, &heading.name);
    if let Some(stop) = reader.stop() {
        return Err(refusal_of(lexed, stop));
    }
    let tokens = counted(lexed, reader.wrong_closing())?;
    let Ok(block) = kept(arena, block) else {
        return Err(Refused::NoMemory);
    };
    Ok(Unit {
        pos: heading.pos,
        is_unsafe: heading.words.is_unsafe,
        name: heading.name,
        kind,
        imports,
        block,
        closing,
        tokens,
    })
}

/// Keeps a part of a unit.
fn kept<'a, T: Copy>(arena: &'a Bump, part: T) -> Result<Kept<'a, T>, NoMemory> {
    let kept = arena.try_alloc(Box::new(arena, part)?)?;
    Ok(&*kept)
}

/// What a unit is, up to what it imports, or to the end of an instance.
fn unit_kind<'a>(reader: &mut Reader<'_, 'a>, words: FirstWords) -> UnitKind<'a>
    ensures { Follows reader.old reader.new }
{
    if words.is_generic {
        let formals = names_between(reader, Sign::OpenParen, Sign::CloseParen);
        reader.take_sign(Sign::Semicolon);
        return if words.is_interface {
            UnitKind::GenericInterface { formals }
        } else {
            UnitKind::GenericModule { formals }
        };
    }
    if words.is_interface {
        interface_kind(reader)
    } else {
        module_kind(reader)
    }
}

fn interface_kind<'a>(reader: &mut Reader<'_, 'a>) -> UnitKind<'a>
    ensures { Follows reader.old reader.new }
{
    if reader.skip_sign(Sign::Equal) {
        let (generic, actuals) = instance(reader);
        return UnitKind::InterfaceInstance { generic, actuals };
    }
    reader.take_sign(Sign::Semicolon);
    UnitKind::Interface
}

fn module_kind<'a>(reader: &mut Reader<'_, 'a>) -> UnitKind<'a>
    ensures { Follows reader.old reader.new }
{
    let exports = if reader.skip_word(Word::Exports) {
        Some(name_list(reader))
    } else {
        None
    };
    if reader.skip_sign(Sign::Equal) {
        let (generic, actuals) = instance(reader);
        return UnitKind::ModuleInstance {
            exports,
            generic,
            actuals,
        };
    }
    reader.take_sign(Sign::Semicolon);
    UnitKind::Module { exports }
}

fn is_instance(kind: &UnitKind<'_>) -> bool {
    matches!(
        kind,
        UnitKind::InterfaceInstance { .. } | UnitKind::ModuleInstance { .. }
    )
}

/// What a unit imports; nothing of an instance.
fn own_imports<'a>(reader: &mut Reader<'_, 'a>, kind: &UnitKind<'a>) -> &'a [Import<'a>]
    ensures { Follows reader.old reader.new }
{
    if is_instance(kind) {
        return reader.no_items();
    }
    imports(reader)
}

/// The block of a module, the declarations of an interface with the END behind them, or nothing of
/// an instance.
fn own_block<'a>(reader: &mut Reader<'_, 'a>, kind: &UnitKind<'a>) -> Block<'a>
    ensures { Follows reader.old reader.new }
{
    if let UnitKind::Module { .. } | UnitKind::GenericModule { .. } = kind {
        return block(reader, MAX_OPEN);
    }
    let pos = reader.pos();
    if is_instance(kind) {
        return Block {
            pos,
            declarations: reader.no_items(),
            body: reader.no_items(),
            end: pos,
        };
    }
    let declarations = declaration_list(reader, MAX_OPEN);
    let end = reader.take_word(Word::End);
    Block {
        pos,
        declarations,
        body: reader.no_items(),
        end,
    }
}

/// The generic's name and the actuals of an instance, with the END behind them.
fn instance<'a>(reader: &mut Reader<'_, 'a>) -> (Name<'a>, &'a [Name<'a>])
    ensures { Follows reader.old reader.new }
{
    let generic = reader.take_name();
    let actuals = names_between(reader, Sign::OpenParen, Sign::CloseParen);
    reader.take_word(Word::End);
    (generic, actuals)
}

/// The imports of a unit.
fn imports<'a>(reader: &mut Reader<'_, 'a>) -> &'a [Import<'a>]
    ensures { Follows reader.old reader.new }
{
    let mut imports = Vec::new(reader.alloc);
    'imports: while let Some(import) = import(reader) {
        reader.put(&mut imports, import);
    }
    reader.row(imports)
}

/// The imports that begin here with IMPORT or FROM, if any do.
fn import<'a>(reader: &mut Reader<'_, 'a>) -> Option<Import<'a>>
    ensures follows { Follows reader.old reader.new }
    ensures past { OnSome result (length reader.new.rest.now < length reader.old.rest.now) }
{
    let pos = reader.pos();
    if reader.skip_word(Word::From) {
        let interface = reader.take_name();
        reader.take_word(Word::Import);
        let names = name_list(reader);
        reader.take_sign(Sign::Semicolon);
        Some(Import::Names {
            pos,
            interface,
            names,
        })
    } else if reader.skip_word(Word::Import) {
        let items = import_items(reader);
        reader.take_sign(Sign::Semicolon);
        Some(Import::Interfaces { pos, items })
    } else {
        None
    }
}

/// The interfaces behind IMPORT.
fn import_items<'a>(reader: &mut Reader<'_, 'a>) -> &'a [ImportItem<'a>]
    ensures { Follows reader.old reader.new }
{
    let mut items = Vec::new(reader.alloc);
    'items: loop {
        let interface = reader.take_name();
        let alias = if reader.skip_word(Word::As) {
            Some(reader.take_name())
        } else {
            None
        };
        reader.put(&mut items, ImportItem { interface, alias });
        if !reader.skip_sign(Sign::Comma) {
            break;
        }
    }
    reader.row(items)
}
