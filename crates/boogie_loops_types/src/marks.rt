// Numbers that stand twice in a list.
ghost use Rattle.std.specs.Prelude.{◌≡◌, ◌==◌, ◌∷◌, ℕ, not, true, false, length};
ghost use Rattle.std.specs.List.{list_all};
ghost use Rattle.boogie_loops.specs.WideTypes as ty;
ghost use Rattle.boogie_loops_types.specs.Marks.{AreAmong, ClearsOne, IsClear, MarksOne, are_new};

use boogie_loops::WProc;
use std::alloc::Global;
use std::marker::Model;
use vb_base::Memory;

/// A mark for each number below some number, by which it is found at once that a number stands twice. None is set but while a
/// list is looked through. Contracts see how many there are.
#[derive(Drop)]
pub(crate) struct Marks {
    marks: Vec<bool>,
}

impl Model for Marks {
    ghost use Rattle.std.specs.Prelude.{ℕ, length};
    ghost use Rattle.boogie_loops_types.specs.Marks.{IsClear};

    ghost Value = { ℕ };

    ghost view = { λ m. length m.marks.items };

    ghost invariant = { λ m. IsClear m.marks.items };
}

impl Marks {
    /// A mark for each variable of each procedure. `Memory` where there is no memory.
    pub(crate) fn of(alloc: Global, procs: &[WProc]) -> Result<Marks, Memory> {
        let marks = vec![in alloc; false; most_locals(procs)]?;
        Ok(Marks { marks })
    }

    /// No marks, which take no memory: each number of a list is compared with all behind it.
    pub(crate) fn none(alloc: Global) -> Marks
        ensures { result ≡ 0 }
    {
        Marks {
            marks: Vec::new(alloc),
        }
    }

    /// Whether no number stands twice.
    pub(crate) fn all_differ(&mut self, numbers: &[usize]) -> bool
        ensures { result ≡ ty.all_differ numbers.now }
    {
        let differ = mark(&mut self.marks, numbers);
        unmark(&mut self.marks, numbers);
        differ
    }
}

/// How many variables a procedure of these has at most.
fn most_locals(procs: &[WProc]) -> usize {
    let mut most = 0;
    for proc in procs {
        most = most.max(proc.locals.len());
    }
    most
}

/// Marks the numbers up to the first that stood before, and tells whether there is none.
fn mark(marks: &mut [bool], numbers: &[usize]) -> bool
    requires { IsClear marks.old }
    ensures told { result ≡ ty.all_differ numbers.now }
    ensures marked { AreAmong numbers.now marks.new }
{
    let mut count = 0;
    for number in numbers {
        count += 1;
        if !is_new(marks, *number, &numbers[count..]) {
            return false;
        }
    }
    true
}

/// Whether a number is not marked yet, which it is from then on. One that has no mark is compared with those behind it.
fn is_new(marks: &mut [bool], number: usize, behind: &[usize]) -> bool
    ensures again { result ≡ false → are_new marks.old (number ∷ behind.now) ≡ false }
    ensures first { result ≡ true → are_new marks.old (number ∷ behind.now) ≡ are_new marks.new behind.now }
    ensures marked { MarksOne marks.old number marks.new }
{
    if number >= marks.len() {
        return is_none_of(number, behind);
    }
    let is_new = !marks[number];
    marks[number] = true;
    is_new
}

/// Whether a number is none of these.
fn is_none_of(number: usize, others: &[usize]) -> bool
    ensures { result ≡ list_all (λ j. not (number == j)) others.now }
{
    others.iter().all(|other| number != *other)
}

/// Takes the marks of these numbers away, beside which none is marked.
fn unmark(marks: &mut [bool], numbers: &[usize])
    requires { AreAmong numbers.now marks.old }
    ensures { IsClear marks.new }
{
    for number in numbers {
        clear(marks, *number);
    }
}

fn clear(marks: &mut [bool], number: usize)
    ensures { ClearsOne marks.old number marks.new }
{
    if number < marks.len() {
        marks[number] = false;
    }
}
