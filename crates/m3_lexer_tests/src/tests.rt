use m3_base::{Pos, Refusal, Refused};
use m3_lexer::lex;
use m3_syntax::{Sign, TokenKind, Word};
use std::alloc::Global;
use std::fmt::{Debug, Display};
use std::process::Abort;
use std::test::Fail;

/// What was found is what was wanted.
fn expect<T: PartialEq + Debug + Drop>(rt: &impl Abort, found: T, wanted: T, what: &impl Display) {
    assert_eq!(rt; found, wanted, "{what}");
}

/// A token that is to be found: its kind, its text, its line and its column.
type Wanted<'a> = (TokenKind, &'a [u8], u32, u32);

fn pos(line: u32, col: u32) -> Pos {
    Pos { file: 3, line, col }
}

/// A text with its tokens, and the line and the column at which it ends.
type Text<'a> = (&'a [u8], &'a [Wanted<'a>], (u32, u32));

fn has_tokens<R: Abort>(rt: &R, alloc: Global, text: Text) {
    let (src, wanted, end) = text;
    assert!(rt; src.len() < 1000);
    let Ok(lexed) = lex(alloc, 3, src) else {
        panic!(rt; "{src:?} is refused");
    };
    expect(rt, lexed.tokens.len(), wanted.len(), &"how many tokens");
    for (number, (token, wanted)) in lexed.tokens.iter().zip(wanted).enumerate() {
        let (kind, text, line, col) = *wanted;
        let found = (token.kind, token.text, token.pos);
        expect(rt, found, (kind, text, pos(line, col)), &number);
    }
    expect(rt, lexed.end, pos(end.0, end.1), &"the end");
}

/// A text with the first rule that it breaks, and its line and column.
type Broken<'a> = (&'a [u8], u16, u32, u32);

fn breaks<R: Abort>(rt: &R, alloc: Global, broken: Broken) {
    let (src, rule, line, col) = broken;
    assert!(rt; src.len() < 1_000_000);
    let found = lex(alloc, 3, src).err();
    let wanted = Refusal {
        phase: 1,
        unit: 3,
        pos: pos(line, col),
        rule,
    };
    expect(rt, found, Some(Refused::Rule(wanted)), &rule);
}

static TEXTS: [Text<'static>; 6] = [
    (
        b"MODULE Main; (* a (* b *) *) IMPORT IO; <* c *> BEGIN IO.PutInt(16_7F) END Main.",
        &[
            (TokenKind::Keyword(Word::Module), b"MODULE", 1, 1),
            (TokenKind::Ident, b"Main", 1, 8),
            (TokenKind::Symbol(Sign::Semicolon), b";", 1, 12),
            (TokenKind::Keyword(Word::Import), b"IMPORT", 1, 30),
            (TokenKind::Ident, b"IO", 1, 37),
            (TokenKind::Symbol(Sign::Semicolon), b";", 1, 39),
            (TokenKind::Keyword(Word::Begin), b"BEGIN", 1, 49),
            (TokenKind::Ident, b"IO", 1, 55),
            (TokenKind::Symbol(Sign::Dot), b".", 1, 57),
            (TokenKind::Ident, b"PutInt", 1, 58),
            (TokenKind::Symbol(Sign::OpenParen), b"(", 1, 64),
            (TokenKind::Number(127), b"16_7F", 1, 65),
            (TokenKind::Symbol(Sign::CloseParen), b")", 1, 70),
            (TokenKind::Keyword(Word::End), b"END", 1, 72),
            (TokenKind::Ident, b"Main", 1, 76),
            (TokenKind::Symbol(Sign::Dot), b".", 1, 80),
        ],
        (1, 81),
    ),
    (b"", &[], (1, 1)),
    (
        b"a\n  b_1\r\n\x0b\"(*\\\"\"(*\n*)\t END1\n",
        &[
            (TokenKind::Ident, b"a", 1, 1),
            (TokenKind::Ident, b"b_1", 2, 3),
            (TokenKind::TextLit, b"\"(*\\\"\"", 3, 2),
            (TokenKind::Ident, b"END1", 4, 5),
        ],
        (5, 1),
    ),
    // The longest token that begins at a place.
    (
        b"1...2",
        &[
            (TokenKind::Number(1), b"1", 1, 1),
            (TokenKind::Symbol(Sign::DotDot), b"..", 1, 2),
            (TokenKind::Symbol(Sign::Dot), b".", 1, 4),
            (TokenKind::Number(2), b"2", 1, 5),
        ],
        (1, 6),
    ),
    (
        b"16_7.5 16_FG",
        &[
            (TokenKind::Number(7), b"16_7", 1, 1),
            (TokenKind::Symbol(Sign::Dot), b".", 1, 5),
            (TokenKind::Number(5), b"5", 1, 6),
            (TokenKind::Number(15), b"16_F", 1, 8),
            (TokenKind::Ident, b"G", 1, 12),
        ],
        (1, 13),
    ),
    (
        b"<==><:= :=>=>< :*)|",
        &[
            (TokenKind::Symbol(Sign::LessEqual), b"<=", 1, 1),
            (TokenKind::Symbol(Sign::Arrow), b"=>", 1, 3),
            (TokenKind::Symbol(Sign::Subtype), b"<:", 1, 5),
            (TokenKind::Symbol(Sign::Equal), b"=", 1, 7),
            (TokenKind::Symbol(Sign::Assign), b":=", 1, 9),
            (TokenKind::Symbol(Sign::GreaterEqual), b">=", 1, 11),
            (TokenKind::Symbol(Sign::Greater), b">", 1, 13),
            (TokenKind::Symbol(Sign::Less), b"<", 1, 14),
            (TokenKind::Symbol(Sign::Colon), b":", 1, 16),
            (TokenKind::Symbol(Sign::Star), b"*", 1, 17),
            (TokenKind::Symbol(Sign::CloseParen), b")", 1, 18),
            (TokenKind::Symbol(Sign::Bar), b"|", 1, 19),
        ],
        (1, 20),
    ),
];

#[test]
fn tokens(rt: HostRuntime) {
    for text in &TEXTS {
        has_tokens(&rt, rt.alloc(), *text);
    }
}

/// Texts of one token, with its kind.
static SINGLE: [(&[u8], TokenKind); 27] = [
    (b"0", TokenKind::Number(0)),
    (b"007", TokenKind::Number(7)),
    (b"9223372036854775807", TokenKind::Number(i64::MAX)),
    (b"16_FFFFFFFFFFFFFFFF", TokenKind::Number(-1)),
    (b"16_8000000000000000", TokenKind::Number(i64::MIN)),
    (b"2_101", TokenKind::Number(5)),
    (b"16_fF", TokenKind::Number(255)),
    (b"016_10", TokenKind::Number(16)),
    (b"10_18446744073709551615", TokenKind::Number(-1)),
    (b"'a'", TokenKind::CharLit(97)),
    (b"'\"'", TokenKind::CharLit(34)),
    (b"'\xc8'", TokenKind::CharLit(200)),
    (b"'\\n'", TokenKind::CharLit(10)),
    (b"'\\t'", TokenKind::CharLit(9)),
    (b"'\\r'", TokenKind::CharLit(13)),
    (b"'\\f'", TokenKind::CharLit(12)),
    (b"'\\\\'", TokenKind::CharLit(92)),
    (b"'\\''", TokenKind::CharLit(39)),
    (b"'\\\"'", TokenKind::CharLit(34)),
    (b"'\\101'", TokenKind::CharLit(65)),
    (b"'\\377'", TokenKind::CharLit(255)),
    (b"'\\000'", TokenKind::CharLit(0)),
    (b"\"\"", TokenKind::TextLit),
    (b"\"a'\xff\t\"", TokenKind::TextLit),
    (b"\"\\n\\t\\r\\f\\\\\\'\\\"\"", TokenKind::TextLit),
    (b"\"\\377x\"", TokenKind::TextLit),
    (b"\"(* <*\"", TokenKind::TextLit),
];

#[test]
fn single_tokens(rt: HostRuntime) {
    for (src, kind) in &SINGLE {
        single(&rt, rt.alloc(), src, *kind);
    }
}

/// The whole file is one token of this kind.
fn single<R: Abort>(rt: &R, alloc: Global, src: &[u8], kind: TokenKind) {
    assert!(rt; src.len() < 1000);
    let end = (1, 1 + src.len() as u32);
    has_tokens(rt, alloc, (src, &[(kind, src, 1, 1)], end));
}

static BROKEN: [Broken<'static>; 52] = [
    (b"a@", 1, 1, 2),
    (b"_a", 1, 1, 1),
    (b"\n \x80", 1, 2, 2),
    (b"MODULE Main; (* (* *) BEGIN END Main.", 2, 1, 14),
    (b"(*", 2, 1, 1),
    (b"(*)", 2, 1, 1),
    (b"(* <* *> ", 2, 1, 1),
    (b"a\n <* x", 3, 2, 2),
    (b"<*>", 3, 1, 1),
    (b"<* (* *)", 3, 1, 1),
    (b"<* <* *>", 3, 1, 1),
    (b"x := \"ab", 4, 1, 6),
    (b"\"ab\n\"", 4, 1, 1),
    (b"\"a\\\n\"", 4, 1, 1),
    (b"\"a\\\"", 4, 1, 1),
    (b"\"\\q", 4, 1, 1),
    (b"\"\\q\"", 5, 1, 1),
    (b"\"\\400\"", 5, 1, 1),
    (b"\"\\8\"", 5, 1, 1),
    (b"\"\\12\"", 5, 1, 1),
    (b"\"\\18\\n\"", 5, 1, 1),
    (b"'\\q'", 5, 1, 1),
    (b"'\\q", 5, 1, 1),
    (b"'\\400'", 5, 1, 1),
    (b"'\\", 5, 1, 1),
    (b"a ''", 6, 1, 3),
    (b"'''", 6, 1, 1),
    (b"'a", 6, 1, 1),
    (b"'ab'", 6, 1, 1),
    (b"'\n'", 6, 1, 1),
    (b"'\\n", 6, 1, 1),
    (b"'\\nn'", 6, 1, 1),
    (b"9223372036854775808", 7, 1, 1),
    (b"99999999999999999999", 7, 1, 1),
    (b"16_10000000000000000", 7, 1, 1),
    (b"16_ffffffffffffffff0", 7, 1, 1),
    (b"17_1", 8, 1, 1),
    (b"1_0", 8, 1, 1),
    (b"0_1", 8, 1, 1),
    (b"8_8", 8, 1, 1),
    (b"8_A", 8, 1, 1),
    (b"2_12", 8, 1, 1),
    (b"16_", 8, 1, 1),
    (b"16_G", 8, 1, 1),
    (b"17_10000000000000000", 8, 1, 1),
    (b"9_99999999999999999999999", 8, 1, 1),
    (b"99999999999999999999_1", 8, 1, 1),
    (b"MODULE Main; CONST c = 1.5; BEGIN END Main.", 9, 1, 24),
    (b"0.0", 9, 1, 1),
    (b"99999999999999999999.5", 9, 1, 1),
    (b"1..2 3.4", 9, 1, 6),
    (b"(* *) % (*", 1, 1, 7),
];

#[test]
fn broken_rules(rt: HostRuntime) {
    for broken in &BROKEN {
        breaks(&rt, rt.alloc(), *broken);
    }
}

#[test]
fn each_byte_alone(rt: HostRuntime) {
    let alloc = rt.alloc();
    for byte in 0..=255u8 {
        let src = [byte];
        match byte {
            9..=13 | 32 => expect(&rt, count_tokens(alloc, &src), Some(0), &byte),
            b'A'..=b'Z' | b'a'..=b'z' => single(&rt, alloc, &src, TokenKind::Ident),
            b'0'..=b'9' => {
                let value = i64::from(byte - b'0');
                single(&rt, alloc, &src, TokenKind::Number(value));
            }
            b'\'' => breaks(&rt, alloc, (&src, 6, 1, 1)),
            b'"' => breaks(&rt, alloc, (&src, 4, 1, 1)),
            _ => match sign_of(byte) {
                Some(sign) => single(&rt, alloc, &src, TokenKind::Symbol(sign)),
                None => breaks(&rt, alloc, (&src, 1, 1, 1)),
            },
        }
    }
}

/// How many tokens a short text has, if it breaks no rule.
fn count_tokens(alloc: Global, src: &[u8; 1]) -> Option<usize> {
    match lex(alloc, 3, src) {
        Ok(lexed) => Some(lexed.tokens.len()),
        Err(_) => None,
    }
}

/// The signs of one byte.
static SIGNS: [(u8, Sign); 21] = [
    (b'+', Sign::Plus),
    (b'-', Sign::Minus),
    (b'*', Sign::Star),
    (b'/', Sign::Slash),
    (b'=', Sign::Equal),
    (b'#', Sign::Hash),
    (b'<', Sign::Less),
    (b'>', Sign::Greater),
    (b'&', Sign::Ampersand),
    (b'^', Sign::Caret),
    (b'.', Sign::Dot),
    (b',', Sign::Comma),
    (b';', Sign::Semicolon),
    (b':', Sign::Colon),
    (b'|', Sign::Bar),
    (b'(', Sign::OpenParen),
    (b')', Sign::CloseParen),
    (b'[', Sign::OpenBracket),
    (b']', Sign::CloseBracket),
    (b'{', Sign::OpenBrace),
    (b'}', Sign::CloseBrace),
];

fn sign_of(byte: u8) -> Option<Sign> {
    for (first, sign) in &SIGNS {
        if *first == byte {
            return Some(*sign);
        }
    }
    None
}

#[test]
fn keywords(rt: HostRuntime) -> Result<(), Fail> {
    let src =
        b"AND ANY ARRAY AS BEGIN BITS BRANDED BY CASE CONST DIV DO ELSE ELSIF END EVAL EXCEPT \
        EXCEPTION EXIT EXPORTS FINALLY FOR FROM GENERIC IF IMPORT IN INTERFACE LOCK LOOP METHODS \
        MOD MODULE NOT OBJECT OF OR OVERRIDES PROCEDURE RAISE RAISES READONLY RECORD REF REPEAT \
        RETURN REVEAL ROOT SET THEN TO TRY TYPE TYPECASE UNSAFE UNTIL UNTRACED VALUE VAR WHILE \
        WITH";
    let lexed = lex(rt.alloc(), 0, src)?;
    expect(&rt, lexed.tokens.len(), 61, &"how many keywords");
    for (number, token) in lexed.tokens.iter().enumerate() {
        let TokenKind::Keyword(word) = token.kind else {
            panic!(rt; "{:?}", token.kind);
        };
        expect(
            &rt,
            (word as usize, word.text()),
            (number, token.text),
            &number,
        );
    }
    Ok(())
}

#[test]
fn deep_comments(rt: HostRuntime) -> Result<(), Fail> {
    let mut src = Vec::new(rt.alloc());
    for _ in 0..60_000 {
        src.extend_from_slice(b"(*")?;
    }
    for _ in 0..59_999 {
        src.extend_from_slice(b"*)")?;
    }
    breaks(&rt, rt.alloc(), (&src, 2, 1, 1));
    src.extend_from_slice(b"*)x")?;
    assert!(rt; src.len() < 1_000_000);
    let lexed = lex(rt.alloc(), 3, &src)?;
    let places = (lexed.tokens.first().map(|token| token.pos), lexed.end);
    expect(&rt, lexed.tokens.len(), 1, &"how many tokens");
    expect(
        &rt,
        places,
        (Some(pos(1, 240_001)), pos(1, 240_002)),
        &"places",
    );
    Ok(())
}
