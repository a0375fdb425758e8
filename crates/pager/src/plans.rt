//! Plans: the moves of a pager over a string, as words.
ghost use Rattle.std.specs.Prelude.{◌≡◌, ◌<◌, ◌≤◌, [], ◌++◌, length, drop};
ghost use Rattle.output.specs.Outputs.{HasRoom, Writes};
ghost use Rattle.pager.specs.Kinds.{kind_bit, moved};
ghost use Rattle.pager.specs.Plans.{PlansTell, moves, plan_words, word as packed, words};
ghost use Rattle.pager.specs.Prepaging.{filled};
ghost use Rattle.paging.specs.Models.{after, held_on};
ghost use Rattle.paging.specs.Pages.{codes, nothing, size};
ghost use Rattle.paging.specs.Sets.{pages};

use crate::Pager;
use crate::runs::run;
use output::Output;
use paging::set::PageSet;
use paging::string::References;
use step::Step;

mod step;

/// What a move does with a page, by the bit that stands for it in a word.
#[derive(Clone, Copy, Debug, PartialEq, Eq)]
enum Kind {
    /// The page goes.
    Release = 0,
    /// The page comes.
    Pull = 1,
}

/// A move as a word: from the top 13 bits of place, one of kind, 8 of code, and ten zero bits.
fn word(place: u32, kind: Kind, code: u8) -> u32
    requires { place < 8192 }
    ensures { result ≡ packed place (kind_bit kind) code }
{
    place * 0x80000 + kind as u32 * 0x40000 + u32::from(code) * 0x400
}

/// The pages that the pager holds.
fn snapshot<P: Pager>(pager: &P) -> PageSet
    ensures { pages result ≡ filled nothing codes (P.holding pager.now []) }
{
    let mut held = PageSet::new();
    for code in 0..=u8::MAX {
        if pager.holds(code) {
            held.insert(code);
        }
    }
    held
}

/// Serves the string place by place, each with the row from that place to the end, and writes the moves.
fn write_moves<P: Pager>(pager: &mut P, string: &References, plan: &mut Output<u32>)
    requires { HasRoom plan.old (length (plan_words (held_on (P.holding pager.old) string.now) (length string.now))) }
    ensures wrote { Writes plan.old (plan_words (held_on (P.holding pager.old) string.now) (length string.now)) plan.new }
    ensures moves { P.holding pager.new ≡ after (P.holding pager.old) string.now (length string.now) }
    ensures frames { P.room pager.new ≡ P.room pager.old }
{
    let codes = string.codes();
    let mut before = snapshot(pager);
    // By place: what is served is the rest of the row, and no code is looked at.
    for place in 0..codes.len() {
        let pulls = pager.serve(&codes[place..]);
        if pulls > 0 || pager.held_count() != before.len() {
            let after = snapshot(pager);
            let step = Step {
                place: place as u32 + 1,
                before: &before,
                after: &after,
            };
            step.write(plan);
            before = after;
        }
    }
}

/// Serves the string place by place, each with the row from that place to the end, and writes the moves. Returns how
/// many words there are.
pub fn plan<P: Pager>(pager: &mut P, string: &References, out: &mut [u32]) -> usize
    requires { length (plan_words (held_on (P.holding pager.old) string.now) (length string.now)) ≤ length out.old }
    ensures count { result ≡ length (plan_words (held_on (P.holding pager.old) string.now) (length string.now)) }
    ensures wrote { out.new ≡ plan_words (held_on (P.holding pager.old) string.now) (length string.now) ++ drop result out.old }
    ensures moves { P.holding pager.new ≡ after (P.holding pager.old) string.now (length string.now) }
    ensures frames { P.room pager.new ≡ P.room pager.old }
{
    let mut plan = Output::over(out);
    write_moves(pager, string, &mut plan);
    plan.len()
}

/// How many words the plan of a pager has that holds nothing: its pulls and its releases, and it releases what it pulls but for
/// the pages that it holds at the end.
pub fn word_count<P: Pager>(pager: &mut P, string: &References) -> usize
    requires { size (P.holding pager.old []) ≡ 0 }
    ensures { result ≡ length (plan_words (held_on (P.holding pager.old) string.now) (length string.now)) }
{
    let (_, pulls) = run(pager, string);
    let held = pager.held_count();
    2 * pulls as usize - held as usize
}

/// Plans tell the pulls, the releases and what is held.
pub fn plans_stand() -> u8
    ensures { PlansTell }
{
    0
}
