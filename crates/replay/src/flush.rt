//! A pager that at each fault lets everything go.
use paging::held::HeldPages;

mod serve;

/// Holds the page of the last fault alone.
#[derive(Drop)]
pub struct FlushPager {
    held: HeldPages,
}
