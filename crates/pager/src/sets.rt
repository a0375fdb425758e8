//! Two sets of pages side by side.
ghost use Rattle.pager.specs.Plans.{less};
ghost use Rattle.paging.specs.Sets.{pages};
ghost use Rattle.std.specs.Prelude.{◌≡◌};

use paging::set::PageSet;

/// Whether the page is in the one set and the other lacks it.
pub fn lacks(one: &PageSet, other: &PageSet, code: u8) -> bool
    ensures { result ≡ less (pages one.now) (pages other.now) code }
{
    // Both are asked, by `&`: a loop over all codes then has no branch for each.
    one.contains(code) & !other.contains(code)
}
