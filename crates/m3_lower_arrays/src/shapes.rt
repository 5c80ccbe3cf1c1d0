use m3_base::{FaultKind, Pos};
use m3_lower_state::{Builder, Pending, Place, arith, check};
use m3_mid::{Kind, MidOp, Operand, Relation, WordOperator};
use m3_types::{TypeId, TypeNode};

/// The open dimensions of a type.
pub fn dims_of(b: &Builder, kind: TypeId) -> u32 {
    m3_lower_storage::open_dims(b.storage.types, kind)
}

/// New temporaries for so many sizes, kept in a row.
pub fn new_sizes(b: &mut Builder, dims: u32) -> u32 {
    let first = b.next_size();
    for _ in 0..dims {
        let size = Operand::Temp(b.temp(Kind::Number));
        b.size(size);
    }
    first
}

/// The element type below so many dimensions.
pub fn inner_element(b: &Builder, kind: TypeId, dims: u32) -> TypeId {
    let mut at = kind;
    for _ in 0..dims {
        match b.storage.node(at) {
            TypeNode::OpenArray(element) | TypeNode::FixedArray(_, element) => at = element,
            _ => break,
        }
    }
    at
}

/// The words of an element below so many dimensions.
pub fn element_words(b: &Builder, kind: TypeId, dims: u32) -> u64 {
    b.storage.words(inner_element(b, kind, dims))
}

/// The sizes of so many dimensions of an array at a place.
pub fn shape_of(b: &mut Builder, place: Place, kind: TypeId, dims: u32) -> Vec<Operand> {
    let mut sizes = Vec::new(b.alloc);
    let mut at = kind;
    for dim in 0..dims {
        let size = match b.storage.node(at) {
            TypeNode::FixedArray(index, element) => {
                at = element;
                Operand::Number(b.storage.members(index).cast_signed())
            }
            TypeNode::OpenArray(element) => {
                at = element;
                b.size_at(place.sizes.wrapping_add(dim))
            }
            _ => Operand::Number(0),
        };
        if sizes.push(size).is_err() {
            b.fail();
        }
    }
    sizes
}

/// A place with the sizes that a formal of a type gets: those of an open array, else none.
pub fn fitted(b: &mut Builder, place: Place, from: Option<TypeId>, kind: TypeId) -> Place {
    let dims = dims_of(b, kind);
    if dims == place.dims {
        return place;
    }
    let rows = match from {
        Some(from) => shape_of(b, place, from, dims),
        None => Vec::new(b.alloc),
    };
    let sizes = b.next_size();
    for row in &rows {
        b.size(*row);
    }
    Place {
        sizes,
        dims,
        ..place
    }
}

/// Checks that an array has the shape of a fixed array type.
pub fn check_shape<'m>(
    b: &mut Builder<'m, '_>,
    pos: Pos,
    kind: TypeId,
    from: Option<TypeId>,
    place: Place,
    rest: Pending<'m>,
) -> Pending<'m> {
    let Some(from) = from else {
        return rest;
    };
    let dims = place.dims.max(dims_of(b, kind));
    let wanted = shape_of(b, place, kind, dims);
    let found = shape_of(b, place, from, dims);
    let mut code = rest;
    for (dim, want) in wanted.iter().enumerate().rev() {
        if let Some(size) = found.get(dim) {
            if let Operand::Number(_) = want {
                code = code.after(check(Relation::Equal, *size, *want, FaultKind::Shape, pos));
            }
        }
    }
    code
}

/// Checks that two shapes are equal.
pub fn check_equal<'m>(
    pos: Pos,
    wanted: &[Operand],
    found: &[Operand],
    rest: Pending<'m>,
) -> Pending<'m> {
    let mut code = rest;
    for (dim, want) in wanted.iter().enumerate().rev() {
        if let Some(size) = found.get(dim) {
            code = code.after(check(Relation::Equal, *size, *want, FaultKind::Shape, pos));
        }
    }
    code
}

/// Products that are computed before code that needs them.
#[derive(Drop)]
pub struct Counting {
    products: Vec<MidOp<'static>>,
}

impl Counting {
    /// The code with the products in front of it.
    pub fn put<'m>(&self, rest: Pending<'m>) -> Pending<'m> {
        let mut code = rest;
        for product in self.products.iter().rev() {
            code = code.after(*product);
        }
        code
    }
}

/// The words of all elements below some sizes, with what computes them.
pub fn total_words(b: &mut Builder, sizes: &[Operand], element: u64) -> (Operand, Counting) {
    let mut known = element.cast_signed();
    let mut unknown = None;
    let mut counting = Counting {
        products: Vec::new(b.alloc),
    };
    for size in sizes {
        match size {
            Operand::Number(number) => known = known.wrapping_mul(*number),
            Operand::Temp(_) => {
                unknown = match unknown {
                    None => Some(*size),
                    Some(product) => Some(multiplied(b, &mut counting, product, *size)),
                };
            }
        }
    }
    match unknown {
        None => (Operand::Number(known), counting),
        Some(product) if known == 1 => (product, counting),
        Some(product) => {
            let total = multiplied(b, &mut counting, product, Operand::Number(known));
            (total, counting)
        }
    }
}

fn multiplied(b: &mut Builder, counting: &mut Counting, left: Operand, right: Operand) -> Operand {
    let to = b.temp(Kind::Number);
    let product = arith(to, WordOperator::Multiply, left, right);
    if counting.products.push(product).is_err() {
        b.fail();
    }
    Operand::Temp(to)
}
