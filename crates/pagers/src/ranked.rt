//! The pager that a ranking makes.
use paging::held::HeldPages;

mod admit;
mod places;
mod serve;

/// A pager that moves as the own run of its ranking does, and counts its serves.
#[derive(Drop)]
pub struct RankingPager<R> {
    ranking: R,
    serves: u16,
    held: HeldPages,
}
