ghost use Rattle.std.specs.Prelude.{◌≡◌};
ghost use Rattle.m3_read_cursor.specs.Readers.{Follows, Reads};
ghost use Rattle.m3_read_cursor.specs.Steps.{BindingSpells, NameSpells};

use crate::kinds::goes_on;
use crate::reader::Reader;
use m3_syntax::{Name, Sign, TokenKind};

/// Goes past a name and `:=`, where they are here.
pub fn binding<'a>(reader: &mut Reader<'_, 'a>) -> Option<Name<'a>>
    ensures follows { Follows reader.old reader.new }
    ensures reads { Reads reader.old reader.new
        (λ before after. BindingSpells before after result) }
{
    if !reader.is_name() || reader.next_kind() != Some(TokenKind::Symbol(Sign::Assign)) {
        return None;
    }
    let name = reader.take_name();
    reader.take_sign(Sign::Assign);
    Some(name)
}

/// A name that begins an actual or an element where no construct can be opened any more: it needs
/// none yet, as it may stand before `:=`. What goes on with it lies too deep.
pub fn lone_name<'a>(reader: &mut Reader<'_, 'a>, room: u32) -> Option<Name<'a>>
    ensures follows { Follows reader.old reader.new }
    ensures reads { Reads reader.old reader.new (λ before after. NameSpells before after result) }
{
    if room > 0 || !reader.is_name() {
        return None;
    }
    let lone = reader.take_name();
    match reader.kind() {
        Some(kind) if goes_on(kind) => {
            reader.too_deep();
            Some(lone)
        }
        _ => Some(lone),
    }
}
