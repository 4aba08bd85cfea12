ghost use Rattle.std.specs.Prelude.{◌≡◌};
ghost use Rattle.jsx_check.specs.Checks.{rank_of};
ghost use Rattle.jsx_check.specs.Firsts.{earlier, is_before};

use jsx_syntax::Rule;

/// A rule that is broken, and the place of the name that breaks it.
#[derive(Clone, Copy, Debug, PartialEq, Eq, Drop)]
pub struct Found {
    pub rule: Rule,
    pub at: usize,
}

/// The order of the rules at one place.
fn rank_of(rule: Rule) -> u8
    ensures { result ≡ rank_of rule }
{
    match rule {
        Rule::UnknownName => 0,
        Rule::UnknownElement => 1,
        Rule::UnknownAttribute => 2,
        Rule::TwiceDefined => 3,
        Rule::UsedBeforeDefined => 4,
        Rule::FallbackNotPlain => 5,
    }
}

fn is_before(a: Found, b: Found) -> bool
    ensures { result ≡ is_before a b }
{
    a.at < b.at || (a.at == b.at && rank_of(a.rule) < rank_of(b.rule))
}

/// The earlier of two by place and then by the order of the rules, and the first where they are alike.
pub fn earlier(found: Option<Found>, other: Option<Found>) -> Option<Found>
    ensures { result ≡ earlier found other }
{
    let Some(a) = found else {
        return other;
    };
    let Some(b) = other else {
        return found;
    };
    if is_before(b, a) { other } else { found }
}
