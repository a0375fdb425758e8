//! DPMIN by looking ahead.
use paging::held::HeldPages;

mod prepage;
mod serve;

/// A pager that on a fault holds the pages whose next references are nearest.
#[derive(Drop)]
pub struct DpminPager {
    held: HeldPages,
}
