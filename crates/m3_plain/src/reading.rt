// From a text to what its statements put.

ghost use Rattle.std.specs.Prelude.{◌≡◌, ◌≤◌, List, IfOk, IsErrOf};
ghost use Rattle.m3_plain.specs.Terms.{Term, terms_of, all_nodes, AreShallow};
ghost use Rattle.m3_plain.specs.PlainForm.{IsPlain};

use crate::lexing::lex;
use crate::parsing::parse;
use crate::plain::{Plain, PlainRefused};
use std::alloc::Global;

/// What a text of the plain form puts, statement by statement.
///
/// `NotBuilt` comes exactly where the text isn't in the plain form: at most 2,000 tokens that make
/// `MODULE Main; IMPORT IO; BEGIN S END Main.`, where S is statements `IO.PutInt(Sum)`.
pub fn read_plain(alloc: Global, text: &[u8]) -> Result<Vec<Plain>, PlainRefused>
    ensures plain { IfOk result (λ puts. IsPlain text.now (terms_of puts.items)) }
    ensures only { IfOk result (λ puts. (others : List Term) → IsPlain text.now others
        → others ≡ terms_of puts.items) }
    ensures few { IfOk result (λ puts. all_nodes (terms_of puts.items) ≤ 2000) }
    ensures shallow { IfOk result (λ puts. AreShallow (terms_of puts.items)) }
    ensures not_built { IsErrOf result PlainRefused.NotBuilt → (puts : List Term)
        → IsPlain text.now puts → ⊥ }
{
    if text.len() >= u32::MAX as usize {
        return Err(PlainRefused::NotBuilt);
    }
    let tokens = lex(alloc, text)?;
    parse(alloc, tokens.as_slice())
}
