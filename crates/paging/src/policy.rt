//! The policies, by their letters.
ghost use Rattle.paging.specs.Letters.{IsOfLetter};

use crate::refusal::Refusal;

/// A policy whose schedule the evaluator knows.
#[derive(Clone, Copy, Debug, PartialEq, Eq)]
pub enum Policy {
    /// L: releases the page whose last reference is oldest.
    Lru,
    /// M: releases the page whose next reference is furthest.
    Min,
    /// D: on a fault holds the pages whose next references are nearest.
    Dpmin,
    /// F: releases the page pulled longest ago.
    Fifo,
}

/// The policy of a letter, or the refusal that no policy has it.
impl TryFrom<char> for Policy {
    type Error = Refusal;

    ghost try_from_gives = { IsOfLetter };

    fn try_from(letter: char) -> Result<Policy, Refusal> {
        match letter {
            'L' => Ok(Policy::Lru),
            'M' => Ok(Policy::Min),
            'D' => Ok(Policy::Dpmin),
            'F' => Ok(Policy::Fifo),
            _ => Err(Refusal::UnknownLetter),
        }
    }
}
