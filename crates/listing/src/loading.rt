//! Loading a recording into a list of its own kind.
ghost use Rattle.evaluator.specs.Histories.{load_string};
ghost use Rattle.evaluator.specs.Strings.{string};
ghost use Rattle.listing.specs.Listings.{of_tasks, own_load, own_string};
ghost use Rattle.recording.specs.Coding.{decoded};
ghost use Rattle.std.specs.Prelude.{◌≡◌, length};

use evaluator::Trial;
use names::list::NameList;
use names::name::{Name, Page, TaskPage};
use recording::fault::LoadFault;

/// Whether the kind that a recording gives is that of tasks with pages.
fn names_tasks(recording: &[u8]) -> bool
    ensures { result ≡ of_tasks recording.now }
{
    recording
        .first()
        .is_some_and(|byte| u16::from(byte / 4 % 4) == TaskPage::kind_number())
}

/// Loads a recording into the trial, with a list over the memory. Returns the number of references.
fn load_over<N: Name + Copy>(
    trial: &mut Trial,
    memory: &mut [N],
    recording: &[u8],
) -> Result<usize, LoadFault>
    ensures answer { result ≡ decoded N.kind N.width (length memory.old) recording.now }
    ensures string { string trial.new ≡ load_string N.kind N.width (length memory.old) recording.now }
{
    trial.load(&mut NameList::over(memory), recording)
}

/// Loads a recording into the trial, with a list of the recording's own kind that has 256 places. Returns the number of
/// references.
pub fn load_own(trial: &mut Trial, recording: &[u8]) -> Result<usize, LoadFault>
    ensures answer { result ≡ own_load recording.now }
    ensures string { string trial.new ≡ own_string recording.now }
{
    if names_tasks(recording) {
        load_over(trial, &mut [TaskPage { task: 0, page: 0 }; 256], recording)
    } else {
        load_over(trial, &mut [Page { page: 0 }; 256], recording)
    }
}
