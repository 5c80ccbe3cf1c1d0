//! The rules that refuse a source, by name: their numbers and their texts.

ghost use Rattle.std.specs.Prelude.{◌≡◌};
ghost use Rattle.std.specs.Option.{option_copied};
ghost use Rattle.m3_base.specs.Rules.{text_in, rule_text_of, lexical_rules, syntactic_rules, generic_rules, naming_rules, constant_rules, expression_rules, statement_rules, size_rules};

// The rules of the lexis.
pub const BAD_BYTE: u16 = 1;

pub const OPEN_COMMENT: u16 = 2;

pub const OPEN_PRAGMA: u16 = 3;

pub const OPEN_TEXT: u16 = 4;

pub const BAD_ESCAPE: u16 = 5;

pub const BAD_CHARACTER_LITERAL: u16 = 6;

pub const NUMBER_TOO_LARGE: u16 = 7;

pub const BAD_BASE: u16 = 8;

pub const REAL_LITERAL: u16 = 9;

// The rules of the grammar.
pub const UNEXPECTED_TOKEN: u16 = 10;

pub const END_OF_FILE: u16 = 11;

pub const END_NAME_DIFFERS: u16 = 12;

pub const NESTING_TOO_DEEP: u16 = 13;

pub const TOO_MANY_TOKENS: u16 = 14;

// The rules of generics.
pub const UNKNOWN_GENERIC: u16 = 15;

pub const WRONG_NUMBER_OF_ACTUALS: u16 = 16;

pub const ACTUAL_IS_NO_INTERFACE: u16 = 17;

pub const TOO_MANY_TOKENS_IN_ALL: u16 = 18;

// The rules of units and names.
pub const UNKNOWN_UNIT: u16 = 20;

pub const DUPLICATE_UNIT: u16 = 21;

pub const IMPORT_CYCLE: u16 = 22;

pub const UNKNOWN_NAME: u16 = 23;

pub const DUPLICATE_NAME: u16 = 24;

pub const PREDECLARED_NAME: u16 = 25;

pub const NO_MAIN_MODULE: u16 = 26;

pub const TWO_MAIN_MODULES: u16 = 27;

pub const FLOATING_NAME: u16 = 28;

pub const UNSAFE_OR_LEFT_OUT: u16 = 29;

pub const NO_FULL_REVELATION: u16 = 30;

pub const TWO_FULL_REVELATIONS: u16 = 31;

pub const PROCEDURE_WITHOUT_BODY: u16 = 32;

pub const TWO_BODIES: u16 = 33;

pub const BODY_IN_INTERFACE: u16 = 34;

pub const NOT_AN_OPAQUE_TYPE: u16 = 35;

// The rules of types and constants.
pub const NOT_CONSTANT: u16 = 40;

pub const CONSTANT_OVERFLOW: u16 = 41;

pub const CONSTANT_ZERO_DIVISOR: u16 = 42;

pub const CONSTANT_OUT_OF_RANGE: u16 = 43;

pub const WRONG_KIND_OF_CONSTANT: u16 = 44;

pub const BAD_REVELATION: u16 = 45;

pub const ILLEGAL_RECURSION: u16 = 46;

pub const TYPE_NOT_ALLOWED_HERE: u16 = 47;

pub const SET_TOO_LARGE: u16 = 48;

pub const BAD_DECLARATION: u16 = 49;

// The rules of expressions.
pub const OPERANDS_DO_NOT_FIT: u16 = 50;

pub const NOT_ASSIGNABLE: u16 = 51;

pub const NOT_A_DESIGNATOR: u16 = 52;

pub const NOT_WRITABLE: u16 = 53;

pub const WRONG_TYPE_FOR_VAR: u16 = 54;

pub const BAD_ACTUAL_LIST: u16 = 55;

pub const NOT_CALLABLE: u16 = 56;

pub const NO_SUCH_FIELD_OR_METHOD: u16 = 57;

pub const NOT_A_REFERENCE: u16 = 58;

pub const NOT_AN_ARRAY: u16 = 59;

pub const TYPE_EXPECTED: u16 = 60;

pub const VALUE_EXPECTED: u16 = 61;

pub const NO_SUCH_MEMBER: u16 = 62;

pub const BAD_CONSTRUCTOR: u16 = 63;

pub const TYPES_NOT_RELATED: u16 = 64;

pub const BAD_TYPE_FOR_NEW: u16 = 65;

pub const BAD_NEW_ARGUMENT: u16 = 66;

pub const NESTED_PROCEDURE_ASSIGNED: u16 = 67;

pub const BAD_BUILT_IN_ARGUMENT: u16 = 68;

// The rules of statements.
pub const RESULT_UNUSED: u16 = 70;

pub const EXIT_OUTSIDE_LOOP: u16 = 71;

pub const BAD_RETURN: u16 = 72;

pub const BAD_CASE_LABEL: u16 = 73;

pub const LABELS_OVERLAP: u16 = 74;

pub const BAD_FOR_BOUNDS: u16 = 75;

pub const CONDITION_NOT_BOOLEAN: u16 = 76;

pub const NOT_A_MUTEX: u16 = 77;

pub const NOT_AN_EXCEPTION: u16 = 78;

pub const BAD_EXCEPTION_ARGUMENT: u16 = 79;

pub const BAD_HANDLER: u16 = 80;

pub const BAD_TYPECASE_TYPE: u16 = 81;

pub const EVAL_WITHOUT_VALUE: u16 = 82;

// The rules of sizes.
pub const TOO_MANY_TYPES: u16 = 90;

pub const TOO_MANY_PROCEDURES: u16 = 91;

pub const FRAME_TOO_LARGE: u16 = 92;

pub const TYPE_TOO_LARGE: u16 = 93;

pub const TOO_MANY_GLOBALS: u16 = 94;

pub const PROGRAM_TOO_LARGE: u16 = 95;

/// The text that is printed with a rule's number, or None where no rule has this number.
#[tactic(auto, using(crate::proofs::Copied::copied_or))]
pub fn rule_text(rule: u16) -> Option<&'static str>
    ensures { option_copied result ≡ rule_text_of rule }
{
    lexical_text(rule)
        .or(syntactic_text(rule))
        .or(generic_text(rule))
        .or(naming_text(rule))
        .or(constant_text(rule))
        .or(expression_text(rule))
        .or(statement_text(rule))
        .or(size_text(rule))
}

/// The rules of the lexis.
fn lexical_text(rule: u16) -> Option<&'static str>
    ensures { option_copied result ≡ text_in lexical_rules rule }
{
    match rule {
        BAD_BYTE => Some("bad byte"),
        OPEN_COMMENT => Some("open comment"),
        OPEN_PRAGMA => Some("open pragma"),
        OPEN_TEXT => Some("open text"),
        BAD_ESCAPE => Some("bad escape"),
        BAD_CHARACTER_LITERAL => Some("bad character literal"),
        NUMBER_TOO_LARGE => Some("number too large"),
        BAD_BASE => Some("bad base"),
        REAL_LITERAL => Some("real literal"),
        _ => None,
    }
}

/// The rules of the grammar.
fn syntactic_text(rule: u16) -> Option<&'static str>
    ensures { option_copied result ≡ text_in syntactic_rules rule }
{
    match rule {
        UNEXPECTED_TOKEN => Some("unexpected token"),
        END_OF_FILE => Some("end of file"),
        END_NAME_DIFFERS => Some("end name differs"),
        NESTING_TOO_DEEP => Some("nesting too deep"),
        TOO_MANY_TOKENS => Some("too many tokens"),
        _ => None,
    }
}

/// The rules of generics.
fn generic_text(rule: u16) -> Option<&'static str>
    ensures { option_copied result ≡ text_in generic_rules rule }
{
    match rule {
        UNKNOWN_GENERIC => Some("unknown generic"),
        WRONG_NUMBER_OF_ACTUALS => Some("wrong number of actuals"),
        ACTUAL_IS_NO_INTERFACE => Some("actual is no interface"),
        TOO_MANY_TOKENS_IN_ALL => Some("too many tokens in all"),
        _ => None,
    }
}

/// The rules of units and names.
fn naming_text(rule: u16) -> Option<&'static str>
    ensures { option_copied result ≡ text_in naming_rules rule }
{
    match rule {
        UNKNOWN_UNIT => Some("unknown unit"),
        DUPLICATE_UNIT => Some("duplicate unit"),
        IMPORT_CYCLE => Some("import cycle"),
        UNKNOWN_NAME => Some("unknown name"),
        DUPLICATE_NAME => Some("duplicate name"),
        PREDECLARED_NAME => Some("predeclared name"),
        NO_MAIN_MODULE => Some("no main module"),
        TWO_MAIN_MODULES => Some("two main modules"),
        FLOATING_NAME => Some("floating name"),
        UNSAFE_OR_LEFT_OUT => Some("unsafe or left out"),
        NO_FULL_REVELATION => Some("no full revelation"),
        TWO_FULL_REVELATIONS => Some("two full revelations"),
        PROCEDURE_WITHOUT_BODY => Some("procedure without body"),
        TWO_BODIES => Some("two bodies"),
        BODY_IN_INTERFACE => Some("body in interface"),
        NOT_AN_OPAQUE_TYPE => Some("not an opaque type"),
        _ => None,
    }
}

/// The rules of types and constants.
fn constant_text(rule: u16) -> Option<&'static str>
    ensures { option_copied result ≡ text_in constant_rules rule }
{
    match rule {
        NOT_CONSTANT => Some("not constant"),
        CONSTANT_OVERFLOW => Some("constant overflow"),
        CONSTANT_ZERO_DIVISOR => Some("constant zero divisor"),
        CONSTANT_OUT_OF_RANGE => Some("constant out of range"),
        WRONG_KIND_OF_CONSTANT => Some("wrong kind of constant"),
        BAD_REVELATION => Some("bad revelation"),
        ILLEGAL_RECURSION => Some("illegal recursion"),
        TYPE_NOT_ALLOWED_HERE => Some("type not allowed here"),
        SET_TOO_LARGE => Some("set too large"),
        BAD_DECLARATION => Some("bad declaration"),
        _ => None,
    }
}

/// The rules of expressions.
fn expression_text(rule: u16) -> Option<&'static str>
    ensures { option_copied result ≡ text_in expression_rules rule }
{
    match rule {
        OPERANDS_DO_NOT_FIT => Some("operands do not fit"),
        NOT_ASSIGNABLE => Some("not assignable"),
        NOT_A_DESIGNATOR => Some("not a designator"),
        NOT_WRITABLE => Some("not writable"),
        WRONG_TYPE_FOR_VAR => Some("wrong type for VAR"),
        BAD_ACTUAL_LIST => Some("bad actual list"),
        NOT_CALLABLE => Some("not callable"),
        NO_SUCH_FIELD_OR_METHOD => Some("no such field or method"),
        NOT_A_REFERENCE => Some("not a reference"),
        NOT_AN_ARRAY => Some("not an array"),
        TYPE_EXPECTED => Some("type expected"),
        VALUE_EXPECTED => Some("value expected"),
        NO_SUCH_MEMBER => Some("no such member"),
        BAD_CONSTRUCTOR => Some("bad constructor"),
        TYPES_NOT_RELATED => Some("types not related"),
        BAD_TYPE_FOR_NEW => Some("bad type for NEW"),
        BAD_NEW_ARGUMENT => Some("bad NEW argument"),
        NESTED_PROCEDURE_ASSIGNED => Some("nested procedure assigned"),
        BAD_BUILT_IN_ARGUMENT => Some("bad built-in argument"),
        _ => None,
    }
}

/// The rules of statements.
fn statement_text(rule: u16) -> Option<&'static str>
    ensures { option_copied result ≡ text_in statement_rules rule }
{
    match rule {
        RESULT_UNUSED => Some("result unused"),
        EXIT_OUTSIDE_LOOP => Some("exit outside loop"),
        BAD_RETURN => Some("bad return"),
        BAD_CASE_LABEL => Some("bad case label"),
        LABELS_OVERLAP => Some("labels overlap"),
        BAD_FOR_BOUNDS => Some("bad FOR bounds"),
        CONDITION_NOT_BOOLEAN => Some("condition not boolean"),
        NOT_A_MUTEX => Some("not a mutex"),
        NOT_AN_EXCEPTION => Some("not an exception"),
        BAD_EXCEPTION_ARGUMENT => Some("bad exception argument"),
        BAD_HANDLER => Some("bad handler"),
        BAD_TYPECASE_TYPE => Some("bad TYPECASE type"),
        EVAL_WITHOUT_VALUE => Some("EVAL without value"),
        _ => None,
    }
}

/// The rules of sizes.
fn size_text(rule: u16) -> Option<&'static str>
    ensures { option_copied result ≡ text_in size_rules rule }
{
    match rule {
        TOO_MANY_TYPES => Some("too many types"),
        TOO_MANY_PROCEDURES => Some("too many procedures"),
        FRAME_TOO_LARGE => Some("frame too large"),
        TYPE_TOO_LARGE => Some("type too large"),
        TOO_MANY_GLOBALS => Some("too many globals"),
        PROGRAM_TOO_LARGE => Some("program too large"),
        _ => None,
    }
}
