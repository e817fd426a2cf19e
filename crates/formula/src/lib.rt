// Terms and formulas of the rule language, and how tightly its binary signs bind: what the reader of
// rule text and the meaning of rules both stand on (document 01, 'Rule text' and 'Meaning'). The trees
// are definitions, in specs/Formula.antt; code holds a formula in postfix order (crate syntax).
#![tactic(auto)]

ghost use Rattle.std.specs.Prelude.{◌≡◌};
ghost use Rattle.formula.specs.Sign.{level_of, joins_terms};

// The binary signs: -> <-> | & join formulas, + * join terms.
#[derive(Clone, Copy)]
pub enum Sign {
    Implies,
    Iff,
    Or,
    And,
    Plus,
    Times,
}

// The binding level of a binary sign, from 0, the loosest.
pub fn level(s: Sign) -> u8
    ensures { result ≡ level_of s }
{
    match s {
        Sign::Implies => 0,
        Sign::Iff => 0,
        Sign::Or => 1,
        Sign::And => 2,
        Sign::Plus => 1,
        Sign::Times => 2,
    }
}

// Whether a binary sign joins terms; the others join formulas.
pub fn joins_terms(s: Sign) -> bool
    ensures { result ≡ joins_terms s }
{
    matches!(s, Sign::Plus | Sign::Times)
}
