ghost use Rattle.m3_lexer.specs.Lexing.{OneList, TokensOrRefusal, OneRefusal};

/// A file has one list of tokens at most: what `lex` gives is the only one.
pub fn one_list()
    ensures { OneList }
{}

/// A file that has tokens breaks no rule, and one that breaks a rule has no tokens.
pub fn tokens_or_refusal()
    ensures { TokensOrRefusal }
{}

/// One broken rule is the first.
pub fn one_refusal()
    ensures { OneRefusal }
{}
