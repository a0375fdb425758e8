//! Sets of pages.
ghost use Rattle.std.specs.Prelude.{◌≡◌, ℕ, length};
ghost use Rattle.paging.specs.Flags.{flagged};
ghost use Rattle.paging.specs.Pages.{size};

mod change;
mod read;

/// A set of pages, with the number of its pages.
#[derive(Clone, Copy)]
pub struct PageSet {
    // A flag for each code and the number of those that are set, since nothing here is allocated.
    held: [bool; 256],
    count: u32,
    ghost counted: { count ≡ size (flagged held) },
    ghost wide: { length held ≡ 256 },
}
