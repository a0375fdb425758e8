//! The different pages of a string.
ghost use Rattle.evaluator.specs.Strings.{page_count, string};
ghost use Rattle.std.specs.Prelude.{◌≡◌, length};

use crate::Trial;
use paging::set::PageSet;

/// How many different pages a string has.
fn different(string: &[u8]) -> u32
    ensures { result ≡ page_count string.now }
{
    let mut seen = PageSet::new();
    for &code in string {
        seen.insert(code);
    }
    seen.len()
}

impl Trial {
    /// How many different pages the string has.
    pub fn page_count(&self) -> u32
        ensures { result ≡ page_count (string self.now) }
    {
        different(self.codes())
    }
}
