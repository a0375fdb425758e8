//! How a ranking's pager serves.
ghost use Rattle.pagers.specs.Pagers.{ranked_model};
ghost use Rattle.paging.specs.Frames.{frames_of};
ghost use Rattle.paging.specs.Rankings.{own};
ghost use Rattle.paging.specs.Sets.{pages};
ghost use Rattle.std.specs.Prelude.{◌≡◌};
ghost use Rattle.pagers.specs.Laws.{ranked_law};

use super::RankingPager;
use super::admit::admit;
use super::places::{later, next_place};
use pager::Pager;
use paging::frames::FrameCount;
use paging::held::HeldPages;
use ranking::Ranking;

impl<R: Ranking> RankingPager<R> {
    /// The pager of the ranking as it is, which holds nothing.
    pub fn new(ranking: R, frames: FrameCount) -> RankingPager<R>
        ensures holding { ranked_model (R.order result.ranking) (frames_of result.held.frames) result.serves (pages result.held.set) ≡ own (R.order ranking) (frames_of frames) }
        ensures room { frames_of result.held.frames ≡ frames_of frames }
    {
        RankingPager {
            ranking,
            serves: 0,
            held: HeldPages::new(frames),
        }
    }
}

impl<R: Ranking> Pager for RankingPager<R> {
    ghost holding = { λ s. ranked_model (R.order s.ranking) (frames_of s.held.frames) s.serves (pages s.held.set) };

    ghost room = { λ s. frames_of s.held.frames };

    ghost keeps = { λ s. ranked_law (R.order s.ranking) s.serves s.held };

    fn frames(&self) -> u32 {
        self.held.frames.get()
    }

    fn held_count(&self) -> u32 {
        self.held.set.len()
    }

    fn holds(&self, code: u8) -> bool {
        self.held.set.contains(code)
    }

    fn serve(&mut self, row: &[u8]) -> u32 {
        let Some((&code, rest)) = row.split_first() else {
            return 0;
        };
        self.serves = later(self.serves, 1);
        self.ranking
            .tell(code, self.serves, next_place(self.serves, code, rest));
        admit(&self.ranking, &mut self.held, code)
    }
}
