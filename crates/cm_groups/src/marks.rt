//! Marked numbers of groups.
ghost use Rattle.std.specs.Prelude.{◌≡◌, ◌<◌, ◌==◌, ◌||◌, ℕ, All, IfOk, false, length};
ghost use Rattle.std.specs.List.{list_any};
ghost use Rattle.cm_groups.specs.Marked.{is_marked};

use cm_base::Memory;
use std::alloc::Global;
use std::marker::Model;

/// For each number below a count whether it is marked. Contracts see the list of the marks.
#[derive(Drop)]
pub struct Marks {
    marks: Vec<bool>,
    /// Whether a number may be marked.
    some: bool,
}

impl Model for Marks {
    ghost use Rattle.std.specs.Prelude.{◌≡◌, ℕ, Bool, List, false};
    ghost use Rattle.cm_groups.specs.Marked.{is_marked};

    ghost Value = { List Bool };

    ghost view = { λ marks. marks.marks.items };

    ghost invariant = { λ marks. marks.some ≡ false → (number : ℕ) → is_marked marks.marks.items number ≡ false };
}

/// Whether the number is marked.
fn is_marked(marks: &[bool], number: u16) -> bool
    ensures { result ≡ is_marked marks.now number }
{
    match marks.get(usize::from(number)) {
        Some(mark) => *mark,
        None => false,
    }
}

/// Whether one of the numbers is marked.
fn is_one_marked(marks: &[bool], numbers: &[u16]) -> bool
    ensures { result ≡ list_any (is_marked marks.now) numbers.now }
{
    numbers.iter().any(|number| is_marked(marks, *number))
}

impl Marks {
    /// No marks, for numbers below the count.
    pub(crate) fn none(alloc: Global, count: usize) -> Result<Marks, Memory>
        ensures count { IfOk result (λ marks. length marks ≡ count) }
        ensures none { IfOk result (λ marks. (number : ℕ) → is_marked marks number ≡ false) }
    {
        let marks = vec![in alloc; false; count]?;
        Ok(Marks { marks, some: false })
    }

    /// Marks the number.
    pub(crate) fn add(&mut self, number: u16)
        requires { number < length self.now }
        ensures count { length self.new ≡ length self.old }
        ensures marked { (other : ℕ) → is_marked self.new other ≡ (number == other || is_marked self.old other) }
    {
        self.marks[usize::from(number)] = true;
        self.some = true;
    }

    /// Marks of these numbers, which are below the count.
    pub fn of(alloc: Global, count: usize, numbers: &[u16]) -> Result<Marks, Memory>
        requires { All (λ number. number < count) numbers.now }
        ensures { IfOk result (λ marks. (number : ℕ) → is_marked marks number ≡ list_any (λ other. other == number) numbers.now) }
    {
        let mut marks = Marks::none(alloc, count)?;
        for number in numbers {
            marks.add(*number);
        }
        Ok(marks)
    }

    /// Whether the number is marked.
    pub fn has(&self, number: u16) -> bool
        ensures { result ≡ is_marked self.now number }
    {
        is_marked(&self.marks, number)
    }

    /// Whether one of the numbers is marked.
    pub fn has_one(&self, numbers: &[u16]) -> bool
        ensures { result ≡ list_any (is_marked self.now) numbers.now }
    {
        self.some && is_one_marked(&self.marks, numbers)
    }
}
