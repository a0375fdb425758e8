//! Paging in the plainest way: what is held at each place, found by looking through the string.
use std::alloc::{AllocError, Global};
use std::cmp::Reverse;
use std::collections::BTreeSet;

/// A set of pages, by their codes.
pub type Pages = BTreeSet<u8>;

/// What a move does with its page.
// Not the evaluator's own: nothing is shared with what is checked.
#[derive(Clone, Copy, PartialEq, Eq)]
pub enum Kind {
    /// The page goes.
    Release = 0,
    /// The page comes.
    Pull = 1,
}

/// A page that comes or goes at a place, counted from 1.
#[derive(Clone, Copy)]
pub struct Move {
    /// The place.
    pub place: usize,
    /// Whether the page comes or goes.
    pub kind: Kind,
    /// The page.
    pub code: u8,
}

/// A reference to a page that is not held.
#[derive(Clone, Copy)]
pub struct Fault<'a> {
    /// Where sets are made.
    heap: Global,
    /// How many pages can be held.
    frames: usize,
    /// The references before.
    before: &'a [u8],
    /// The page that is referenced.
    code: u8,
    /// This reference and those that follow.
    onward: &'a [u8],
    /// What is held before.
    held: &'a Pages,
    /// The moves that were made before.
    moves: &'a [Move],
}

impl Fault<'_> {
    /// The place before at which a page is referenced last.
    fn last_place(&self, code: u8) -> Option<usize> {
        self.before.iter().rposition(|c| *c == code)
    }

    /// How far away a page is referenced next.
    fn next_place(&self, code: u8) -> Option<usize> {
        self.onward.iter().position(|c| *c == code)
    }

    /// Which of the moves before pulled a page last.
    fn last_pull(&self, code: u8) -> Option<usize> {
        self.moves
            .iter()
            .rposition(|step| step.kind == Kind::Pull && step.code == code)
    }

    /// What is held then, if the page goes where all frames are full.
    fn releasing(&self, page: Option<u8>) -> Result<Pages, AllocError> {
        let mut now = self.held.clone()?;
        if let Some(code) = page {
            if now.len() >= self.frames {
                now.remove(&code);
            }
        }
        now.insert(self.code)?;
        Ok(now)
    }
}

/// The page referenced longest ago goes.
pub fn oldest(fault: &Fault) -> Result<Pages, AllocError> {
    let held = fault.held.iter().copied();
    fault.releasing(held.min_by_key(|code| fault.last_place(*code)))
}

/// The page referenced last goes.
pub fn newest(fault: &Fault) -> Result<Pages, AllocError> {
    let mut past = fault.before.iter().rev().copied();
    fault.releasing(past.find(|code| fault.held.contains(code)))
}

/// The page referenced again furthest away goes, and of those never referenced again the one with the largest code.
pub fn furthest(fault: &Fault) -> Result<Pages, AllocError> {
    let held = fault.held.iter().copied();
    fault.releasing(held.min_by_key(|code| (fault.next_place(*code).map(Reverse), Reverse(*code))))
}

/// The page with the largest code goes.
pub fn largest(fault: &Fault) -> Result<Pages, AllocError> {
    fault.releasing(fault.held.last().copied())
}

/// The page pulled longest ago goes.
pub fn first(fault: &Fault) -> Result<Pages, AllocError> {
    let held = fault.held.iter().copied();
    fault.releasing(held.min_by_key(|code| fault.last_pull(*code)))
}

/// The pages whose next references are nearest are held: as many as there are frames, of those to come and then of those
/// held before.
pub fn nearest(fault: &Fault) -> Result<Pages, AllocError> {
    let mut now = BTreeSet::new(fault.heap);
    for code in fault.onward.iter().chain(fault.held.iter()) {
        if now.len() < fault.frames {
            now.insert(*code)?;
        }
    }
    Ok(now)
}

/// Every other page goes.
pub fn alone(fault: &Fault) -> Result<Pages, AllocError> {
    BTreeSet::from_array(fault.heap, [fault.code])
}

/// Adds a move for each page that one set has and the other lacks, by rising codes.
fn add_moves(
    moves: &mut Vec<Move>,
    place: usize,
    kind: Kind,
    one: &Pages,
    other: &Pages,
) -> Result<(), AllocError> {
    moves.extend(
        one.difference(other).map(move |code| Move {
            place,
            kind,
            code: *code,
        }),
    )
}

/// What a rule makes of a string.
#[derive(Drop)]
pub struct Schedule {
    /// At how many places something was pulled.
    pub instants: u32,
    /// The pages that came and went, by rising places: at each place those that went, and then those that came, by rising codes.
    pub moves: Vec<Move>,
    /// What is held at the end.
    pub held: Pages,
}

impl Schedule {
    /// What is held changes by the rule at each reference to a page that is not held.
    pub fn of<F: Fn(&Fault) -> Result<Pages, AllocError>>(
        heap: Global,
        frames: u32,
        string: &[u8],
        rule: F,
    ) -> Result<Schedule, AllocError>
        requires { F.IsAlwaysCallable rule }
    {
        let mut schedule = Schedule {
            instants: 0,
            moves: Vec::new(heap),
            held: BTreeSet::new(heap),
        };
        for (t, code) in string.iter().enumerate() {
            if !schedule.held.contains(code) {
                let (before, onward) = string.split_at(t);
                let now = rule(&Fault {
                    heap,
                    frames: frames as usize,
                    before,
                    code: *code,
                    onward,
                    held: &schedule.held,
                    moves: &schedule.moves,
                })?;
                schedule.change(t + 1, now)?;
            }
        }
        Ok(schedule)
    }

    /// At a fault other pages are held than before.
    fn change(&mut self, place: usize, now: Pages) -> Result<(), AllocError> {
        add_moves(&mut self.moves, place, Kind::Release, &self.held, &now)?;
        add_moves(&mut self.moves, place, Kind::Pull, &now, &self.held)?;
        self.instants = self.instants.wrapping_add(1);
        self.held = now;
        Ok(())
    }

    /// The fault instants and the pulls.
    pub fn figures(&self) -> (u32, u32) {
        let pulls = self
            .moves
            .iter()
            .filter(|step| step.kind == Kind::Pull)
            .count();
        (self.instants, count(pulls))
    }
}

/// How many different pages there are among the references.
pub fn different(heap: Global, codes: &[u8]) -> Result<u32, AllocError> {
    let pages: Pages = codes.iter().copied().collect(heap)?;
    Ok(count(pages.len()))
}

/// A count in 32 bits, as the evaluator gives it.
fn count(number: usize) -> u32 {
    u32::try_from(number).unwrap_or(u32::MAX)
}
