use bumpalo::Bump;
use bumpalo::collections::into_bump_slice;
use m3_base::{NoMemory, place_number};
use m3_check_state::{Checker, Given};
use m3_check_types::{formals_of, own_member};
use m3_decl_lookup::Member;
use m3_syntax::Name;
use m3_types::{Formal, Mode, TypeId};

/// Which formals have an actual, and the formal of each actual so far.
#[derive(Drop)]
struct Matching<'a> {
    given: Vec<bool, &'a Bump>,
    order: Vec<u32, &'a Bump>,
}

impl Matching<'_> {
    /// Takes a formal for the next actual; false where there is none, or it has one.
    fn take(&mut self, formal: u32) -> Result<bool, NoMemory> {
        let is_free = match self.given.get_mut(formal as usize) {
            Some(given) => {
                let is_free = !*given;
                *given = true;
                is_free
            }
            None => false,
        };
        if is_free {
            self.order.push(formal)?;
        }
        Ok(is_free)
    }
}

/// The formal that each actual is for, by place or by name, and behind these the formals that get
/// their defaults. None where an actual is for none or two are for one, or where a formal without
/// a default, or by VAR, has none.
pub fn matched<'a>(
    checker: &mut Checker<'_, 'a>,
    signature: TypeId,
    actuals: &[Given<'a>],
) -> Result<Option<&'a [u32]>, NoMemory> {
    let formals = formals_of(checker, signature);
    let mut matching = Matching {
        given: vec![in checker.arena; false; formals.len()]?,
        order: Vec::new(checker.arena),
    };
    let is_good = match_all(checker, &mut matching, signature, actuals)?
        && add_defaults(checker, &mut matching, signature, formals)?;
    let Matching { given, order } = matching;
    drop(given);
    if is_good {
        Ok(Some(into_bump_slice(order)))
    } else {
        Ok(None)
    }
}

/// Matches each actual with its formal; false where one has none.
fn match_all<'a>(
    checker: &mut Checker<'_, 'a>,
    matching: &mut Matching<'a>,
    signature: TypeId,
    actuals: &[Given<'a>],
) -> Result<bool, NoMemory> {
    let mut is_named = false;
    for (place, actual) in actuals.iter().enumerate() {
        let formal = match actual.name {
            Some(name) => {
                is_named = true;
                named(checker, signature, name)?
            }
            None if is_named => None,
            None => Some(place_number(place)?),
        };
        let is_taken = match formal {
            Some(formal) => matching.take(formal)?,
            None => false,
        };
        if !is_taken {
            return Ok(false);
        }
    }
    Ok(true)
}

/// The formal of this name.
fn named<'a>(
    checker: &mut Checker<'_, 'a>,
    signature: TypeId,
    name: Name<'a>,
) -> Result<Option<u32>, NoMemory> {
    match own_member(checker, signature, name.text)? {
        Some(Member::Formal(formal)) => Ok(Some(formal)),
        _ => Ok(None),
    }
}

/// Adds the formals without an actual; false where one can't be left out.
fn add_defaults<'a>(
    checker: &Checker<'_, 'a>,
    matching: &mut Matching<'a>,
    signature: TypeId,
    formals: &[Formal<'a>],
) -> Result<bool, NoMemory> {
    let is_flawed = checker.is_flawed(signature);
    for (place, formal) in formals.iter().enumerate() {
        if matching.take(place_number(place)?)? && !may_be_left_out(checker, formal, is_flawed) {
            return Ok(false);
        }
    }
    Ok(true)
}

/// Whether a call may leave a formal out. Where the signature is flawed no default is missed.
fn may_be_left_out(checker: &Checker<'_, '_>, formal: &Formal<'_>, is_flawed: bool) -> bool {
    let has_default = is_flawed || formal.default.is_some() || checker.is_refused(formal.kind);
    has_default && formal.mode != Mode::Var
}
