use crate::judging::judge_all;
use bumpalo::Bump;
use m3_base::{NoMemory, Refused};
use m3_const_values::Evaluator;
use m3_decl_lookup::{Basic, Declared};
use m3_decl_solver::settle_all;
use m3_decl_state::{Declarer, Doubtful, Trees};
use m3_decl_types::{define_all, name_all, reserve_all};
use m3_link_gather::gather;
use m3_link_scopes::Linked;
use m3_types::{TypeGraph, TypeNode};
use std::alloc::Global;

/// The types that every program has.
fn basic_types(types: &mut TypeGraph<'_>) -> Result<Basic, NoMemory> {
    let integer = types.push(TypeNode::Integer)?;
    Ok(Basic {
        integer,
        boolean: types.push(TypeNode::Boolean)?,
        character: types.push(TypeNode::Character)?,
        cardinal: types.push(TypeNode::Subrange(integer, 0, i64::MAX))?,
        text: types.push(TypeNode::Text)?,
        null: types.push(TypeNode::Null)?,
        refany: types.push(TypeNode::RefAny)?,
        root: types.push(TypeNode::Root)?,
        mutex: types.push(TypeNode::Mutex)?,
        refused: types.reserve()?,
    })
}

/// What the declarations of a program declare, and their constant expressions that are to be judged
/// with the expressions of bodies.
#[derive(Drop)]
pub struct Declarations<'a> {
    pub declared: Declared<'a>,
    pub doubtful: Vec<Doubtful<'a>>,
}

/// The types and constants of all declarations of a linked program, and the types of all its type
/// expressions. The least broken rule of types and constants (rules 40 to 49) is the answer where
/// there is one.
pub fn declare<'a>(
    alloc: Global,
    arena: &'a Bump,
    linked: &Linked<'a>,
) -> Result<Declarations<'a>, Refused> {
    let mut types = TypeGraph::new(alloc);
    let basic = basic_types(&mut types)?;
    let declared = Declared::new(alloc, types, basic);
    let eval = Evaluator::new(alloc, arena, &linked.program, declared);
    let gathered = gather(alloc, linked)?;
    let mut trees = Trees::new(alloc, &linked.declarations, gathered);
    let mut declarer = Declarer::new(alloc, eval);
    work_out(&mut declarer, &mut trees)?;
    let eval = declarer.eval;
    let doubts = trees.doubts;
    Ok(Declarations {
        declared: eval.declared,
        doubtful: doubts.doubtful,
    })
}

/// Works out all types and constants of a program, and judges them.
fn work_out<'a>(declarer: &mut Declarer<'_, 'a>, trees: &mut Trees<'_, 'a>) -> Result<(), Refused> {
    reserve_all(declarer, trees)?;
    name_all(declarer, trees)?;
    define_all(declarer, trees)?;
    settle_all(declarer, trees)?;
    judge_all(declarer, trees)?;
    declarer.least.check()?;
    Ok(())
}
