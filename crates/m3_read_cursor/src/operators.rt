ghost use Rattle.std.specs.Prelude.{◌≡◌, ◌<◌, OnSome, IfSome, IfNone, length};
ghost use Rattle.m3_read_cursor.specs.Readers.{Follows};
ghost use Rattle.m3_read_cursor.specs.Steps.{IsInfix, IsPrefixSign};

use crate::reader::Reader;
use m3_read_grammar::{Level, level_of, operator_of};
use m3_syntax::{Operator, PrefixSign, Sign};

/// Goes past the operator of this level, where one is here.
pub fn operator_here(reader: &mut Reader<'_, '_>, level: Level) -> Option<Operator>
    ensures follows { Follows reader.old reader.new }
    ensures past { OnSome result (length reader.new.rest.now < length reader.old.rest.now) }
    ensures reads { IfSome result (IsInfix level reader.old.rest.now reader.new.rest.now) }
    ensures stays { IfNone result (reader.new ≡ reader.old) }
{
    let operator = operator_of(reader.kind()?)?;
    if level_of(operator) != level {
        return None;
    }
    reader.step();
    Some(operator)
}

/// Goes past a sign, where one is here.
pub fn prefix_sign(reader: &mut Reader<'_, '_>) -> Option<PrefixSign>
    ensures follows { Follows reader.old reader.new }
    ensures past { OnSome result (length reader.new.rest.now < length reader.old.rest.now) }
    ensures reads { IfSome result (IsPrefixSign reader.old.rest.now reader.new.rest.now) }
    ensures stays { IfNone result (reader.new ≡ reader.old) }
{
    let pos = reader.pos();
    if reader.skip_sign(Sign::Plus) {
        Some(PrefixSign {
            pos,
            is_minus: false,
        })
    } else if reader.skip_sign(Sign::Minus) {
        Some(PrefixSign {
            pos,
            is_minus: true,
        })
    } else {
        None
    }
}
