use m3_types::{
    Brand, ConstValue, Field, Formal, Initial, Method, Mode, Override, Raises, TypeNode,
};

/// Mixes a word into a mark (a multiplicative hash, Knuth 1973).
fn mix(mark: u64, word: u64) -> u64 {
    let mixed = (mark ^ word).wrapping_mul(0x9e37_79b9_7f4a_7c15);
    mixed ^ (mixed >> 29)
}

fn mix_text(mark: u64, text: &[u8]) -> u64 {
    let mut mixed = mix(mark, text.len() as u64);
    for byte in text {
        mixed = mix(mixed, u64::from(*byte));
    }
    mixed
}

fn mix_numbers(mark: u64, numbers: &[u32]) -> u64 {
    let mut mixed = mix(mark, numbers.len() as u64);
    for number in numbers {
        mixed = mix(mixed, u64::from(*number));
    }
    mixed
}

fn mix_names(mark: u64, names: &[&[u8]]) -> u64 {
    let mut mixed = mix(mark, names.len() as u64);
    for name in names {
        mixed = mix_text(mixed, name);
    }
    mixed
}

fn mix_default(mark: u64, default: Option<Initial>) -> u64 {
    mix(mark, u64::from(default.is_some()))
}

fn mix_fields(mark: u64, fields: &[Field]) -> u64 {
    let mut mixed = mix(mark, fields.len() as u64);
    for field in fields {
        mixed = mix_default(mix_text(mixed, field.name), field.default);
    }
    mixed
}

fn mix_methods(mark: u64, methods: &[Method]) -> u64 {
    let mut mixed = mix(mark, methods.len() as u64);
    for method in methods {
        mixed = mix_default(mix_text(mixed, method.name), method.default);
    }
    mixed
}

fn mix_overrides(mark: u64, overrides: &[Override]) -> u64 {
    let mut mixed = mix(mark, overrides.len() as u64);
    for changed in overrides {
        mixed = mix_text(mixed, changed.name);
    }
    mixed
}

fn mix_mode(mark: u64, mode: Mode) -> u64 {
    match mode {
        Mode::Value => mix(mark, 0),
        Mode::Var => mix(mark, 1),
        Mode::Readonly => mix(mark, 2),
    }
}

fn mix_formals(mark: u64, formals: &[Formal]) -> u64 {
    let mut mixed = mix(mark, formals.len() as u64);
    for formal in formals {
        let named = mix_mode(mix_text(mixed, formal.name), formal.mode);
        mixed = mix_default(named, formal.default);
    }
    mixed
}

fn mix_raises(mark: u64, raises: Raises) -> u64 {
    match raises {
        Raises::Any => mix(mark, 0),
        Raises::Only(exceptions) => mix_numbers(mix(mark, 1), exceptions),
    }
}

fn mix_brand(mark: u64, brand: Option<Brand>) -> u64 {
    match brand {
        None => mix(mark, 0),
        Some(Brand::Text(text)) => mix_text(mix(mark, 1), text),
        Some(Brand::Occurrence(number)) => mix(mix(mark, 2), u64::from(number)),
    }
}

fn mark_of_value(value: ConstValue) -> u64 {
    match value {
        ConstValue::Ordinal(number) => mix(21, number.cast_unsigned()),
        ConstValue::Nil => 22,
        ConstValue::Text(text) => mix_text(23, text),
        ConstValue::Procedure(number) => mix(24, u64::from(number)),
        ConstValue::Set(members) => mix_text(25, members),
        ConstValue::Fields(_) => 26,
        ConstValue::Elements(_, count) => mix(27, count),
    }
}

/// A number that definitions which are equal but for the places that they name have in common. The place
/// of the definition counts where no other equals it.
pub(crate) fn mark_of(node: TypeNode, place: u32) -> u64 {
    match node {
        TypeNode::Integer => 1,
        TypeNode::Boolean => 2,
        TypeNode::Character => 3,
        TypeNode::Enumeration(names) => mix_names(4, names),
        TypeNode::Subrange(_, first, last) => {
            mix(mix(5, first.cast_unsigned()), last.cast_unsigned())
        }
        TypeNode::FixedArray(_, _) => 6,
        TypeNode::OpenArray(_) => 7,
        TypeNode::Fields(fields) => mix_fields(8, fields),
        TypeNode::SetOf(_) => 9,
        TypeNode::RefTo(brand, _) => mix_brand(10, brand),
        TypeNode::Object(brand, _, fields, methods, overrides) => {
            let mark = mix_fields(mix_brand(11, brand), fields);
            mix_overrides(mix_methods(mark, methods), overrides)
        }
        TypeNode::Procedure(formals, result, raises) => {
            let mark = mix_raises(mix_formals(12, formals), raises);
            mix(mark, u64::from(result.is_some()))
        }
        TypeNode::Opaque(_, _) => mix(13, u64::from(place)),
        TypeNode::Null => 14,
        TypeNode::RefAny => 15,
        TypeNode::Text => 16,
        TypeNode::Mutex => 17,
        TypeNode::Root => 18,
        TypeNode::Constant(value) => mark_of_value(value),
        TypeNode::Reserved => mix(20, u64::from(place)),
    }
}
