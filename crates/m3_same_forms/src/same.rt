//! When what two operations name is the same.

ghost use Rattle.std.specs.Prelude.{◌≡◌};
ghost use Rattle.m3_same_forms.specs.Same.{place_of_operator, place_of_checked, place_of_relation};
ghost use Rattle.m3_same_forms.specs.Same.{place_of_service, place_of_deed, place_of_kind};
ghost use Rattle.m3_same_forms.specs.Same.{place_of_tag, detail_of_tag};
ghost use Rattle.m3_same_forms.specs.Same as same;

use crate::forms::Tag;
use crate::seen::Deed;
use m3_base::{FaultKind, Pos};
use m3_mid::{CheckedOperator, Kind, Relation, Service, Slot, WordOperator};

fn operator_place(operator: WordOperator) -> u32
    ensures { result ≡ place_of_operator operator }
{
    match operator {
        WordOperator::Add => 0,
        WordOperator::Subtract => 1,
        WordOperator::Multiply => 2,
        WordOperator::And => 3,
        WordOperator::Or => 4,
        WordOperator::Xor => 5,
        WordOperator::Shift => 6,
        WordOperator::Rotate => 7,
    }
}

fn checked_place(operator: CheckedOperator) -> u32
    ensures { result ≡ place_of_checked operator }
{
    match operator {
        CheckedOperator::Add => 0,
        CheckedOperator::Subtract => 1,
        CheckedOperator::Multiply => 2,
        CheckedOperator::Div => 3,
        CheckedOperator::Mod => 4,
        CheckedOperator::DivUnsigned => 5,
        CheckedOperator::ModUnsigned => 6,
    }
}

fn relation_place(relation: Relation) -> u32
    ensures { result ≡ place_of_relation relation }
{
    match relation {
        Relation::Equal => 0,
        Relation::NotEqual => 1,
        Relation::Less => 2,
        Relation::LessEqual => 3,
        Relation::LessUnsigned => 4,
        Relation::LessEqualUnsigned => 5,
    }
}

fn service_place(service: Service) -> u32
    ensures { result ≡ place_of_service service }
{
    match service {
        Service::Put => 0,
        Service::PutNumber => 1,
        Service::PutByte => 2,
        Service::GetByte => 3,
        Service::EndOfInput => 4,
        Service::Concatenate => 5,
        Service::ByteText => 6,
        Service::Subtext => 7,
        Service::Fork => 8,
        Service::Join => 9,
        Service::Acquire => 10,
        Service::Release => 11,
        Service::Wait => 12,
        Service::Signal => 13,
        Service::Broadcast => 14,
        Service::MySelf => 15,
        Service::Alert => 16,
        Service::TestAlert => 17,
        Service::AlertWait => 18,
        Service::AlertJoin => 19,
    }
}

fn deed_place(deed: Deed) -> u32
    ensures { result ≡ place_of_deed deed }
{
    match deed {
        Deed::Store => 0,
        Deed::Copy => 1,
        Deed::Fill => 2,
    }
}

fn kind_place(kind: Kind) -> u32
    ensures { result ≡ place_of_kind kind }
{
    match kind {
        Kind::Number => 0,
        Kind::Tidy => 1,
        Kind::Address => 2,
    }
}

fn tag_place(tag: Tag) -> u32
    ensures { result ≡ place_of_tag tag }
{
    match tag {
        Tag::Operator(_) => 0,
        Tag::Checked(_) => 1,
        Tag::Compared(_) => 2,
        Tag::Environment => 3,
        Tag::OwnSlot(_) => 4,
        Tag::TypeTest(_) => 5,
        Tag::MethodOf(_) => 6,
        Tag::Loaded => 7,
        Tag::EqualWords => 8,
        Tag::TextByte => 9,
        Tag::EqualTexts => 10,
    }
}

fn tag_detail(tag: Tag) -> u32
    ensures { result ≡ detail_of_tag tag }
{
    match tag {
        Tag::Operator(operator) => operator_place(operator),
        Tag::Checked(operator) => checked_place(operator),
        Tag::Compared(relation) => relation_place(relation),
        Tag::OwnSlot(n) | Tag::TypeTest(n) | Tag::MethodOf(n) => n,
        Tag::Environment | Tag::Loaded | Tag::EqualWords | Tag::TextByte | Tag::EqualTexts => 0,
    }
}

/// Whether two checked operators are one.
pub fn same_checked(left: CheckedOperator, right: CheckedOperator) -> bool
    ensures { result ≡ same.same_checked left right }
{
    checked_place(left) == checked_place(right)
}

/// Whether two relations are one.
pub fn same_relation(left: Relation, right: Relation) -> bool
    ensures { result ≡ same.same_relation left right }
{
    relation_place(left) == relation_place(right)
}

/// Whether two services are one.
pub(crate) fn same_service(left: Service, right: Service) -> bool
    ensures { result ≡ same.same_service left right }
{
    service_place(left) == service_place(right)
}

/// Whether two deeds are one.
pub fn same_deed(left: Deed, right: Deed) -> bool
    ensures { result ≡ same.same_deed left right }
{
    deed_place(left) == deed_place(right)
}

/// Whether two tags are one.
pub fn same_tag(left: Tag, right: Tag) -> bool
    ensures { result ≡ same.same_tag left right }
{
    tag_place(left) == tag_place(right) && tag_detail(left) == tag_detail(right)
}

/// Whether two faults are one.
pub fn same_fault(left: FaultKind, right: FaultKind) -> bool
    ensures { result ≡ same.same_fault left right }
{
    left.number() == right.number()
}

/// Whether two places are one.
pub fn same_place(left: Pos, right: Pos) -> bool
    ensures { result ≡ same.same_place left right }
{
    left.file == right.file && left.line == right.line && left.col == right.col
}

/// Whether two numbers are one, or neither is there.
pub(crate) fn same_choice(left: Option<u32>, right: Option<u32>) -> bool
    ensures { result ≡ same.same_choice left right }
{
    match (left, right) {
        (None, None) => true,
        (Some(left), Some(right)) => left == right,
        _ => false,
    }
}

fn same_flag(left: bool, right: bool) -> bool
    ensures { result ≡ same.same_flag left right }
{
    match (left, right) {
        (true, true) | (false, false) => true,
        _ => false,
    }
}

fn same_slot(left: Slot, right: Slot) -> bool
    ensures { result ≡ same.same_slot left right }
{
    kind_place(left.kind) == kind_place(right.kind) && same_flag(left.is_shared, right.is_shared)
}

/// Whether the slots of two frames are the same.
pub fn same_slots(left: &[Slot], right: &[Slot]) -> bool
    ensures { result ≡ same.same_slots left.now right.now }
{
    if left.len() != right.len() {
        return false;
    }
    let mut i = 0;
    while i < left.len() {
        if !same_slot(left[i], right[i]) {
            return false;
        }
        i += 1;
    }
    true
}
