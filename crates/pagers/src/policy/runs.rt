//! Runs and plans of a policy's pager, which is used up.
ghost use Rattle.std.specs.Prelude.{◌≡◌, ◌≤◌, [], ◌++◌, length, drop};
ghost use Rattle.pager.specs.Plans.{plan_words};
ghost use Rattle.pagers.specs.Policies.{policy_model};
ghost use Rattle.paging.specs.Models.{held_on, instants_on, pulls_on};
ghost use Rattle.paging.specs.Pages.{size};

use super::PolicyPager;
use pager::plans::{plan, word_count};
use pager::runs::run;
use paging::string::References;

// By value: each pager is then a local of its own here, and which policy it is of is asked once and not at each place.
impl PolicyPager {
    /// Serves the string place by place, each with the row from that place to the end. Returns the fault instants and the
    /// pulls that the policy's pager makes.
    pub fn run(self, string: &References) -> (u32, u32)
        ensures { result ≡ (instants_on (policy_model self) string.now, pulls_on (policy_model self) string.now) }
    {
        match self {
            PolicyPager::Lru(mut pager) => run(&mut pager, string),
            PolicyPager::Min(mut pager) => run(&mut pager, string),
            PolicyPager::Dpmin(mut pager) => run(&mut pager, string),
            PolicyPager::Fifo(mut pager) => run(&mut pager, string),
        }
    }

    /// How many words the plan of the string has, by a pager that holds nothing.
    pub fn word_count(self, string: &References) -> usize
        requires { size (policy_model self []) ≡ 0 }
        ensures { result ≡ length (plan_words (held_on (policy_model self) string.now) (length string.now)) }
    {
        match self {
            PolicyPager::Lru(mut pager) => word_count(&mut pager, string),
            PolicyPager::Min(mut pager) => word_count(&mut pager, string),
            PolicyPager::Dpmin(mut pager) => word_count(&mut pager, string),
            PolicyPager::Fifo(mut pager) => word_count(&mut pager, string),
        }
    }

    /// Serves the string place by place, each with the row from that place to the end, and writes the moves. Returns how
    /// many words there are.
    pub fn plan(self, string: &References, out: &mut [u32]) -> usize
        requires { length (plan_words (held_on (policy_model self) string.now) (length string.now)) ≤ length out.old }
        ensures count { result ≡ length (plan_words (held_on (policy_model self) string.now) (length string.now)) }
        ensures wrote { out.new ≡ plan_words (held_on (policy_model self) string.now) (length string.now) ++ drop result out.old }
    {
        match self {
            PolicyPager::Lru(mut pager) => plan(&mut pager, string, out),
            PolicyPager::Min(mut pager) => plan(&mut pager, string, out),
            PolicyPager::Dpmin(mut pager) => plan(&mut pager, string, out),
            PolicyPager::Fifo(mut pager) => plan(&mut pager, string, out),
        }
    }
}
