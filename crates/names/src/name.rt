//! Names of pages: what every kind of name shows, and the two kinds.
ghost use Rattle.std.specs.Prelude.{◌≡◌, ℕ, ◌^◌, ◌<◌, ◌≤◌, ◌==◌};
ghost use Rattle.names.specs.Kinds.{page_bits, page_from, page_made, task_bits, task_from, task_made};
ghost use Rattle.std.proofs.Common.{rules};

use paging::refusal::Refusal;

// How many numbers of pages there are, and of tasks.
const PAGES: u16 = 4096;

const TASKS: u8 = 16;

/// A kind of name. A name stands for a number of `width` bits, and names that stand for the same number are equal.
pub trait Name {
    // what a name stands for
    ghost bits: { Self → ℕ };

    // the name that is made from a number
    ghost named: { ℕ → Self };

    // how many bits stand for a name in a recording
    ghost width: { ℕ };

    // the kind's number in a recording
    ghost kind: { ℕ };

    /// Whether two names are equal, which is whether they stand for the same bits.
    fn same(&self, other: &Self) -> bool
        ensures { result ≡ (bits self.now == bits other.now) }
    {
        self.to_bits() == other.to_bits()
    }

    // Methods and no `From`: the law `back` ties the two to one another, and to how many bits there are.
    /// The bits that stand for the name in a recording.
    fn to_bits(&self) -> u16
        ensures { result ≡ bits self.now };

    /// The name that the bits stand for.
    fn from_bits(number: u16) -> Self
        ensures { result ≡ named number };

    // Functions and no constants of the trait: clauses would then name the constant, N.WIDTH for N.width, which is no plainer.
    /// How many bits stand for a name in a recording.
    fn bit_width() -> usize
        ensures { result ≡ width };

    /// The number of this kind of name in a recording.
    fn kind_number() -> u16
        ensures { result ≡ kind };

    ghost some: { 1 ≤ width };

    ghost most: { width ≤ 16 };

    ghost mark: { kind < 4 };

    ghost fits: { (x : Self) → bits x < 2 ^ width };

    ghost back: { (n : ℕ) → n < 2 ^ width → bits (named n) ≡ n };
}

/// A bare page number. The record stands for its page modulo 4,096.
#[derive(Clone, Copy)]
pub struct Page {
    pub page: u16,
}

impl Page {
    // How many bits stand for a page in a recording, and the number of its kind.
    const WIDTH: usize = 12;

    const KIND: u16 = 0;

    /// The name of a page from 0 to 4,095.
    pub fn new(page: u16) -> Result<Page, Refusal>
        ensures { result ≡ page_made page }
    {
        if page >= PAGES {
            return Err(Refusal::NameTooLarge);
        }
        Ok(Page { page })
    }
}

impl Name for Page {
    ghost bits = { page_bits };

    ghost named = { page_from };

    ghost width = { 12 };

    ghost kind = { 0 };

    ghost some = { Prim.search rules };

    ghost most = { Prim.search rules };

    ghost mark = { Prim.search rules };

    ghost fits = { Prim.search rules };

    ghost back = { Prim.search rules };

    fn to_bits(&self) -> u16 {
        self.page % PAGES
    }

    fn from_bits(number: u16) -> Page {
        Page { page: number }
    }

    fn bit_width() -> usize {
        Page::WIDTH
    }

    fn kind_number() -> u16 {
        Page::KIND
    }
}

/// A page of a task. The record stands for its task modulo 16 with its page modulo 4,096.
#[derive(Clone, Copy)]
pub struct TaskPage {
    pub task: u8,
    pub page: u16,
}

impl TaskPage {
    // How many bits stand for a page of a task in a recording, and the number of its kind.
    const WIDTH: usize = 16;

    const KIND: u16 = 1;

    /// The name of a page from 0 to 4,095 of a task from 0 to 15.
    pub fn new(task: u8, page: u16) -> Result<TaskPage, Refusal>
        ensures { result ≡ task_made task page }
    {
        if task >= TASKS || page >= PAGES {
            return Err(Refusal::NameTooLarge);
        }
        Ok(TaskPage { task, page })
    }
}

impl Name for TaskPage {
    ghost bits = { task_bits };

    ghost named = { task_from };

    ghost width = { 16 };

    ghost kind = { 1 };

    ghost some = { Prim.search rules };

    ghost most = { Prim.search rules };

    ghost mark = { Prim.search rules };

    ghost fits = { Prim.search rules };

    ghost back = { Prim.search rules };

    // The tasks first: where they differ, no page has to be looked at.
    fn same(&self, other: &TaskPage) -> bool {
        self.task % TASKS == other.task % TASKS && self.page % PAGES == other.page % PAGES
    }

    fn to_bits(&self) -> u16 {
        (self.task % TASKS) as u16 * PAGES + self.page % PAGES
    }

    fn from_bits(number: u16) -> TaskPage {
        TaskPage {
            task: (number / PAGES) as u8,
            page: number % PAGES,
        }
    }

    fn bit_width() -> usize {
        TaskPage::WIDTH
    }

    fn kind_number() -> u16 {
        TaskPage::KIND
    }
}
