//! What changes at a place.
ghost use Rattle.std.specs.Prelude.{◌≡◌, ◌<◌, length};
ghost use Rattle.output.specs.Outputs.{HasRoom, Writes};
ghost use Rattle.pager.specs.Kinds.{kind_bit, moved};
ghost use Rattle.pager.specs.Plans.{moves, words};
ghost use Rattle.paging.specs.Pages.{codes};
ghost use Rattle.paging.specs.Sets.{pages};

use super::{Kind, word};
use crate::sets::lacks;
use output::Output;
use paging::set::PageSet;

/// A place, what was held before it, and what is held at it.
#[derive(Clone, Copy)]
pub(super) struct Step<'s> {
    pub(super) place: u32,
    pub(super) before: &'s PageSet,
    pub(super) after: &'s PageSet,
    ghost low: { place < 8192 },
}

impl Step<'_> {
    /// Whether a page moves in this way.
    fn moves(&self, kind: Kind, code: u8) -> bool
        ensures { result ≡ moved kind (pages self.now.before.now) (pages self.now.after.now) code }
    {
        match kind {
            Kind::Release => lacks(self.before, self.after, code),
            Kind::Pull => lacks(self.after, self.before, code),
        }
    }

    /// Writes a word for each page that moves in this way.
    fn write_kind(&self, kind: Kind, plan: &mut Output<u32>)
        requires { HasRoom plan.old (length (words self.now.place (kind_bit kind) (moved kind (pages self.now.before.now) (pages self.now.after.now)) codes)) }
        ensures { Writes plan.old (words self.now.place (kind_bit kind) (moved kind (pages self.now.before.now) (pages self.now.after.now)) codes) plan.new }
    {
        for code in 0..=u8::MAX {
            if self.moves(kind, code) {
                plan.push(word(self.place, kind, code));
            }
        }
    }

    /// Writes the releases, and then the pulls.
    pub(super) fn write(&self, plan: &mut Output<u32>)
        requires { HasRoom plan.old (length (moves self.now.place (pages self.now.before.now) (pages self.now.after.now))) }
        ensures { Writes plan.old (moves self.now.place (pages self.now.before.now) (pages self.now.after.now)) plan.new }
    {
        self.write_kind(Kind::Release, plan);
        self.write_kind(Kind::Pull, plan);
    }
}
