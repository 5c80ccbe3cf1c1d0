use bumpalo::Bump;
use m3_base::{Refused, gap, place_number};
use m3_lexer::lex;
use m3_parser::parse;
use m3_syntax::Unit;
use std::alloc::Global;

/// The built-in interfaces, by their text. MAIN has nothing; a module that exports it is the
/// program's.
const TEXTS: [&[u8]; 5] = [
    b"INTERFACE Main; END Main.",
    b"INTERFACE IO;
      PROCEDURE Put(t: TEXT);
      PROCEDURE PutInt(n: INTEGER);
      PROCEDURE PutChar(c: CHAR);
      PROCEDURE GetChar(): CHAR;
      PROCEDURE EOF(): BOOLEAN;
      END IO.",
    b"INTERFACE Text;
      TYPE T = TEXT;
      PROCEDURE Cat(t, u: T): T;
      PROCEDURE Equal(t, u: T): BOOLEAN;
      PROCEDURE GetChar(t: T; i: CARDINAL): CHAR;
      PROCEDURE Length(t: T): CARDINAL;
      PROCEDURE Empty(t: T): BOOLEAN;
      PROCEDURE Sub(t: T; start: CARDINAL; length: CARDINAL := LAST(CARDINAL)): T;
      PROCEDURE FromChar(c: CHAR): T;
      END Text.",
    b"INTERFACE Word;
      TYPE T = INTEGER;
      CONST Size = 64;
      PROCEDURE Plus(x, y: T): T;
      PROCEDURE Times(x, y: T): T;
      PROCEDURE Minus(x, y: T): T;
      PROCEDURE Divide(x, y: T): T;
      PROCEDURE Mod(x, y: T): T;
      PROCEDURE LT(x, y: T): BOOLEAN;
      PROCEDURE LE(x, y: T): BOOLEAN;
      PROCEDURE GT(x, y: T): BOOLEAN;
      PROCEDURE GE(x, y: T): BOOLEAN;
      PROCEDURE And(x, y: T): T;
      PROCEDURE Or(x, y: T): T;
      PROCEDURE Xor(x, y: T): T;
      PROCEDURE Not(x: T): T;
      PROCEDURE Shift(x: T; n: INTEGER): T;
      PROCEDURE Rotate(x: T; n: INTEGER): T;
      END Word.",
    b"INTERFACE Thread;
      TYPE T <: ROOT;
        Mutex = MUTEX;
        Condition <: ROOT;
        Closure = OBJECT METHODS apply(): REFANY END;
      EXCEPTION Alerted;
      PROCEDURE Fork(cl: Closure): T;
      PROCEDURE Join(t: T): REFANY;
      PROCEDURE Wait(m: Mutex; c: Condition);
      PROCEDURE Acquire(m: Mutex);
      PROCEDURE Release(m: Mutex);
      PROCEDURE Signal(c: Condition);
      PROCEDURE Broadcast(c: Condition);
      PROCEDURE Self(): T;
      PROCEDURE Alert(t: T);
      PROCEDURE TestAlert(): BOOLEAN;
      PROCEDURE AlertWait(m: Mutex; c: Condition) RAISES {Alerted};
      PROCEDURE AlertJoin(t: T): REFANY RAISES {Alerted};
      END Thread.",
];

/// The units of the built-in interfaces. Their places have file numbers from `first` on.
pub fn built_in_units<'a>(
    alloc: Global,
    arena: &'a Bump,
    first: usize,
) -> Result<Vec<Unit<'a>>, Refused> {
    let mut units = Vec::new(alloc);
    for (place, text) in TEXTS.iter().enumerate() {
        units.push(built_in_unit(alloc, arena, first.saturating_add(place), *text)?)?;
    }
    Ok(units)
}

fn built_in_unit<'a>(
    alloc: Global,
    arena: &'a Bump,
    file: usize,
    text: &'static [u8],
) -> Result<Unit<'a>, Refused> {
    if text.len() >= 4_294_967_295 {
        return Err(Refused::from(gap()));
    }
    let lexed = lex(alloc, place_number(file)?, text)?;
    parse(alloc, arena, &lexed)
}
