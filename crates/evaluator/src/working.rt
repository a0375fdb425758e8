//! Working sets.
ghost use Rattle.std.specs.Prelude.{◌≡◌, ℕ, ◌≤◌};
ghost use Rattle.evaluator.specs.Strings.{string};
ghost use Rattle.evaluator.specs.WorkingSets.{missing, sizes, working_answer};

use crate::Trial;
use paging::refusal::Refusal;
use paging::string::References;
use window::Window;

mod window;

/// The places of a string whose page is not in the window before, and the sum of the windows' sizes.
fn windows(string: &References, width: usize) -> (u32, u32)
    requires { 1 ≤ width }
    ensures missing { result.0 ≡ missing width string.now }
    ensures sizes { result.1 ≡ sizes width string.now }
{
    let codes = string.codes();
    let mut window = Window::over(string, width);
    let mut faults = 0;
    let mut sum = 0;
    for &code in codes {
        if !window.set.contains(code) {
            faults += 1;
        }
        window.slide();
        sum += window.set.len();
    }
    (faults, sum)
}

impl Trial {
    /// The working sets of the string for a window of 1 to 4,096 places: the number of places whose page was not in the
    /// set one place before, and the sum of the sizes of all sets.
    pub fn working_sets(&self, window: u32) -> Result<(u32, u32), Refusal>
        ensures { result ≡ working_answer window (string self.now) }
    {
        if window < 1 || window > 4096 {
            return Err(Refusal::BadWindow);
        }
        Ok(windows(&self.references(), window as usize))
    }
}
