ghost use Rattle.std.specs.Prelude.{Some, None, ◌≡◌, ◌≤◌, ◌<◌, ◌+◌, ◌*◌, ◌/◌, ℕ, length, max, IfSome, IfNone, IfOk, slice_get, true, false};
ghost use Rattle.m3_types_sizes.specs.Sizes.{most_words, set_words, field_words, words_of_node, EachField, EachPart, Known, known_at, known_words, IsRight, AreSized, IsLow, IsFull, CanBeTold, IsTold, lacking};

use m3_base::NoMemory;
use m3_types::{Field, TypeNode, node_at, size_at};
use std::alloc::Global;

/// The most words that a type of a program may take.
pub(crate) const MOST_WORDS: u64 = 1_000_000_000;

/// What the table has for a type.
pub(crate) fn known(table: &[Option<u64>], place: usize) -> Option<u64>
    ensures { result ≡ known_at table.now place }
{
    match table.get(place) {
        Some(known) => *known,
        None => None,
    }
}

/// The words of all fields, within the limit, where the table has those of their types.
fn words_of_fields(table: &[Option<u64>], fields: &[Field]) -> Option<u64>
    requires { IsLow table.now }
    ensures some { IfSome result (λ w. (w ≡ field_words (known_words table.now) fields.now) × (w ≤ most_words) × EachField (Known table.now) fields.now) }
    ensures none { IfNone result (EachField (Known table.now) fields.now → field_words (known_words table.now) fields.now ≤ most_words → ⊥) }
{
    let mut sum = 0u64;
    for field in fields {
        let words = known(table, field.kind.0 as usize)?;
        sum += words;
        if sum > MOST_WORDS {
            return None;
        }
    }
    Some(sum)
}

/// A number of elements times their words, within the limit.
fn words_of_elements(count: u128, words: u64) -> Option<u64>
    requires { words ≤ most_words }
    ensures some { IfSome result (λ w. (w ≡ count * words) × (w ≤ most_words)) }
    ensures none { IfNone result (count * words ≤ most_words → ⊥) }
{
    if words == 0 {
        return Some(0);
    }
    if count > u128::from(MOST_WORDS) {
        return None;
    }
    let total = count * u128::from(words);
    if total > u128::from(MOST_WORDS) {
        return None;
    }
    Some(total as u64)
}

/// The words of a set with so many members in its base, within the limit.
fn words_of_set(members: u128) -> Option<u64>
    ensures some { IfSome result (λ w. (w ≡ set_words members) × (w ≤ most_words)) }
    ensures none { IfNone result (set_words members ≤ most_words → ⊥) }
{
    if members > u128::from(MOST_WORDS) * 64 {
        return None;
    }
    let words = ((members + 63) / 64) as u64;
    Some(words.max(1))
}

/// The words of a type by its definition, within the limit, where the table has those of its parts.
fn words_of_node(nodes: &[TypeNode], table: &[Option<u64>], node: TypeNode) -> Option<u64>
    requires { IsLow table.now }
    ensures some { IfSome result (λ w. (w ≡ words_of_node nodes.now (known_words table.now) node.entry) × (w ≤ most_words) × EachPart (Known table.now) node.entry) }
    ensures none { IfNone result (CanBeTold nodes.now table.now node.entry → ⊥) }
{
    match node {
        TypeNode::Fields(fields) => words_of_fields(table, fields),
        TypeNode::FixedArray(index, element) => {
            let words = known(table, element.0 as usize)?;
            words_of_elements(size_at(nodes, index.0 as usize), words)
        }
        TypeNode::OpenArray(_) | TypeNode::Reserved | TypeNode::Constant(_) => None,
        TypeNode::SetOf(base) => words_of_set(size_at(nodes, base.0 as usize)),
        TypeNode::Procedure(_, _, _) => Some(2),
        _ => Some(1),
    }
}

/// Puts the words of a type into the table, if it lacks them and they can be told. Whether it did.
fn settle(nodes: &[TypeNode], table: &mut [Option<u64>], i: usize) -> bool
    requires place { i < length nodes.now }
    requires alike { length table.old ≡ length nodes.now }
    requires right { IsRight nodes.now table.old }
    requires low { IsLow table.old }
    requires sound { AreSized nodes.now table.old }
    ensures right { IsRight nodes.now table.new }
    ensures low { IsLow table.new }
    ensures sound { AreSized nodes.now table.new }
    ensures fewer { result ≡ true → lacking table.new < lacking table.old }
    ensures unchanged { result ≡ false → table.new ≡ table.old }
    ensures settled { result ≡ false → IsTold nodes.now table.old i }
{
    if table[i].is_some() {
        return false;
    }
    let Some(node) = node_at(nodes, i) else {
        return false;
    };
    match words_of_node(nodes, table, node) {
        Some(words) => {
            table[i] = Some(words);
            true
        }
        None => false,
    }
}

/// Goes once over all types. Whether the table grew.
fn settle_all(nodes: &[TypeNode], table: &mut [Option<u64>]) -> bool
    requires alike { length table.old ≡ length nodes.now }
    requires right { IsRight nodes.now table.old }
    requires low { IsLow table.old }
    requires sound { AreSized nodes.now table.old }
    ensures right { IsRight nodes.now table.new }
    ensures low { IsLow table.new }
    ensures sound { AreSized nodes.now table.new }
    ensures fewer { result ≡ true → lacking table.new < lacking table.old }
    ensures full { result ≡ false → IsFull nodes.now table.new }
{
    let mut grew = false;
    for i in 0..nodes.len() {
        if settle(nodes, table, i) {
            grew = true;
        }
    }
    grew
}

/// Puts the types that a value of a type holds onto the stack: the types of fields and elements.
fn push_held(stack: &mut Vec<(usize, bool)>, node: TypeNode) -> Result<(), NoMemory> {
    match node {
        TypeNode::Fields(fields) => {
            for field in fields {
                stack.push((field.kind.0 as usize, false))?;
            }
        }
        TypeNode::FixedArray(_, element) => stack.push((element.0 as usize, false))?,
        _ => {}
    }
    Ok(())
}

/// The types that a type holds and those that they hold, the inner ones first, onto the end of a list.
/// Only the order in which the words are told depends on it, so that each is told in the first go.
fn add_inner_first(
    nodes: &[TypeNode],
    entered: &mut [bool],
    stack: &mut Vec<(usize, bool)>,
    order: &mut Vec<usize>,
) -> Result<(), NoMemory> {
    for _step in 0..u64::MAX {
        let Some((place, left)) = stack.pop() else {
            return Ok(());
        };
        if left {
            order.push(place)?;
        } else if place < nodes.len() && place < entered.len() && !entered[place] {
            entered[place] = true;
            stack.push((place, true))?;
            push_held(stack, nodes[place])?;
        }
    }
    Ok(())
}

/// All types, each after those that it holds.
fn inner_first(alloc: Global, nodes: &[TypeNode]) -> Result<Vec<usize>, NoMemory> {
    let mut entered = vec![in alloc; false; nodes.len()]?;
    let mut stack = Vec::new(alloc);
    let mut order = Vec::new(alloc);
    for place in 0..nodes.len() {
        stack.push((place, false))?;
        add_inner_first(nodes, &mut entered, &mut stack, &mut order)?;
    }
    Ok(order)
}

/// Puts the words of these types into the table, in this order, where they can be told.
fn settle_each(nodes: &[TypeNode], table: &mut [Option<u64>], order: &[usize])
    requires alike { length table.old ≡ length nodes.now }
    requires right { IsRight nodes.now table.old }
    requires low { IsLow table.old }
    requires sound { AreSized nodes.now table.old }
    ensures right { IsRight nodes.now table.new }
    ensures low { IsLow table.new }
    ensures sound { AreSized nodes.now table.new }
{
    for place in order {
        if *place < nodes.len() {
            let _ = settle(nodes, table, *place);
        }
    }
}

/// The words of all types that have a size.
pub(crate) fn table_of_words(
    alloc: Global,
    nodes: &[TypeNode],
) -> Result<Vec<Option<u64>>, NoMemory>
    ensures alike { IfOk result (λ table. length table.items ≡ length nodes.now) }
    ensures right { IfOk result (λ table. IsRight nodes.now table.items) }
    ensures sound { IfOk result (λ table. AreSized nodes.now table.items) }
    ensures full { IfOk result (λ table. IsFull nodes.now table.items) }
{
    let order = inner_first(alloc, nodes)?;
    let mut table: Vec<Option<u64>> = vec![in alloc; None; nodes.len()]?;
    settle_each(nodes, &mut table, &order);
    while settle_all(nodes, &mut table) {}
    Ok(table)
}
