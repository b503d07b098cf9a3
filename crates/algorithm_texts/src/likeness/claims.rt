//! Whether two algorithms have the same claims.

ghost use Rattle.std.specs.Prelude.{◌≡◌, ◌↔◌, IsTrue, map};
ghost use Rattle.algorithm_texts.specs.Drafts.{claim_form, fact_form};
ghost use Rattle.algorithm_texts.specs.Likeness.{AreClaimedAlike};

use crate::likeness::same_word;
use crate::likeness::values::same_condition;
use algorithms::algorithm::Algorithm;
use algorithms::never_claim::{NeverClaim, StateFact};

/// Whether two facts are the same.
fn same_fact(left: &StateFact, right: &StateFact) -> bool
    ensures { IsTrue result ↔ (fact_form left.now ≡ fact_form right.now) }
{
    match left {
        StateFact::Word(word) => {
            if let StateFact::Word(other) = right {
                same_word(word, other)
            } else {
                false
            }
        }
        StateFact::Phase { name, phase } => {
            if let StateFact::Phase {
                name: own,
                phase: other,
            } = right
            {
                *name == *own && *phase == *other
            } else {
                false
            }
        }
        StateFact::Place { name, label } => {
            if let StateFact::Place {
                name: own,
                label: other,
            } = right
            {
                *name == *own && *label == *other
            } else {
                false
            }
        }
    }
}

/// Whether these facts are the same.
fn same_facts(left: &[StateFact], right: &[StateFact]) -> bool
    ensures { IsTrue result ↔ (map fact_form left.now ≡ map fact_form right.now) }
{
    let mut place = 0;
    for fact in left {
        match right.get(place) {
            Some(other) => {
                if !same_fact(fact, other) {
                    return false;
                }
            }
            None => return false,
        }
        place += 1;
    }
    place == right.len()
}

/// Whether two claims are the same, and have one number.
fn same_claim(left: &NeverClaim, right: &NeverClaim) -> bool
    ensures { IsTrue result ↔ (claim_form left.now ≡ claim_form right.now) }
{
    (left.number == right.number && left.processes == right.processes)
        && (same_facts(left.facts.as_slice(), right.facts.as_slice())
            && same_condition(&left.condition, &right.condition))
}

/// Whether these claims are the same.
fn same_claims(left: &[NeverClaim], right: &[NeverClaim]) -> bool
    ensures { IsTrue result ↔ (map claim_form left.now ≡ map claim_form right.now) }
{
    let mut place = 0;
    for claim in left {
        match right.get(place) {
            Some(other) => {
                if !same_claim(claim, other) {
                    return false;
                }
            }
            None => return false,
        }
        place += 1;
    }
    place == right.len()
}

/// Whether two algorithms have the same claims, with their labels at the same places.
pub fn is_claimed_alike(left: &Algorithm, right: &Algorithm) -> bool
    ensures { IsTrue result ↔ AreClaimedAlike left.now right.now }
{
    same_claims(left.claims.as_slice(), right.claims.as_slice())
        && left.label_places.as_slice() == right.label_places.as_slice()
}
