// The part that a step goes on to, among the grades of the node's parts.
ghost use Rattle.std.specs.Prelude.{◌≤◌, ◌<◌, ◌≡◌, MatchOption, eqb, get_or, length};
ghost use Rattle.counting.specs.Counting.{first};
ghost use Rattle.grades.specs.Grades.{atomic};
ghost use Rattle.explainer.specs.Code.Picks.{LastOf, NoneOf, PickedAt};

// A part by its number, and what is added to the rule.
#[derive(Clone, Copy)]
pub(crate) struct Pick {
    pub part: usize,
    pub added: u8,
}

// The first of some parts whose grade is the whole's.
fn first_part(grades: &[u8], whole: u8) -> Option<usize>
    ensures { MatchOption result (length grades.now ≤ first (length grades.now) (λ i. eqb (get_or grades.now i 0) whole)) (λ part. (part ≡ first (length grades.now) (λ i. eqb (get_or grades.now i 0) whole)) × (part < length grades.now)) }
{
    grades.iter().position(|grade| *grade == whole)
}

// The last of them whose grade is 2.
fn last_atomic(grades: &[u8]) -> Option<usize>
    ensures { MatchOption result (NoneOf (length grades.now) (λ i. eqb (get_or grades.now i 0) atomic)) (LastOf (length grades.now) (λ i. eqb (get_or grades.now i 0) atomic)) }
{
    grades.iter().rposition(|grade| *grade == 2)
}

// "The next step is the first part whose grade equals the step's own. Where the whole is 3 and no part is, it is the last part of grade
// 2, and 8 is added to the rule."
pub(crate) fn picked_part(grades: &[u8], whole: u8) -> Option<Pick>
    ensures { PickedAt whole (λ i. get_or grades.now i 0) (length grades.now) result }
{
    if let Some(part) = first_part(grades, whole) {
        return Some(Pick { part, added: 0 });
    }
    if whole != 3 {
        return None;
    }
    let part = last_atomic(grades)?;
    Some(Pick { part, added: 8 })
}
