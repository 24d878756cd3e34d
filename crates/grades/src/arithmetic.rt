// Grades and their arithmetic (document 01): 0 const, 1 mover, 2 atomic, 3 cmpd, 4 error. A number over 4 counts as grade 4.
// Grades are bytes and no enum: each number has an answer in the promises, and the answer's bytes, which the C interface lends, are grades.
ghost use Rattle.std.specs.Prelude.{◌≡◌};
ghost use Rattle.grades.specs.Grades.{cap, compose, join, closure, assert_atomic, lock_taken};

// Composition, the first grade's row by the second's column.
const COMPOSITION: [[u8; 5]; 5] = [
    [0, 1, 2, 3, 4],
    [1, 1, 2, 3, 4],
    [2, 2, 3, 3, 4],
    [3, 3, 3, 3, 4],
    [4, 4, 4, 4, 4],
];

// The grade that a number counts as.
#[tactic(auto, unfolding(crate::specs::Grades::cap))]
pub fn grade_of(number: u8) -> u8
    ensures { result ≡ cap number }
{
    number.min(4)
}

pub fn compose(first: u8, second: u8) -> u8
    ensures { result ≡ compose first second }
{
    let row = usize::from(grade_of(first));
    let column = usize::from(grade_of(second));
    COMPOSITION[row][column]
}

// The larger of two grades.
#[tactic(auto, unfolding(crate::specs::Grades::cap, crate::specs::Grades::join))]
pub fn join(one: u8, other: u8) -> u8
    ensures { result ≡ join one other }
{
    grade_of(one.max(other))
}

// A step that is repeated: atomic becomes cmpd, every other grade stays.
pub fn closure(grade: u8) -> u8
    ensures { result ≡ closure grade }
{
    if grade == 2 { 3 } else { grade_of(grade) }
}

// What is asserted to be atomic: cmpd becomes error, every other grade stays.
pub fn assert_atomic(grade: u8) -> u8
    ensures { result ≡ assert_atomic grade }
{
    if grade == 3 { 4 } else { grade_of(grade) }
}

// A lock newly taken: const and mover become atomic, every other grade stays.
pub fn lock_taken(grade: u8) -> u8
    ensures { result ≡ lock_taken grade }
{
    if grade < 2 { 2 } else { grade_of(grade) }
}
