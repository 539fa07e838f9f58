//! Runs the cases of its folder: each line of `cases.txt` names the words of a run, its status, and the file with what
//! it prints. A run gets the folder's files by a library in memory, and prints into a sink in memory; it is made over
//! both stores of coded frames. For each case that differs a line is printed, with the store and the first line that
//! does, and in the end how many are as wanted.
//!
//! It stands on `rule_run`, whose [`run_by_rules`](rule_run::run_by_rules) makes each run. The program (`mseplay`)
//! makes its run by this call too: it hands in the folder, standard output, and the store of `track_index`.
//! `examples/README.md` says what a case is, and `IsAsWanted` in `specs/Runs.antt` when it is as wanted.
#![tactic(auto)]

ghost use Rattle.std.specs.Prelude.{◌≡◌, ◌≢◌, ◌↔◌, [], Some, IsTrue, if◌then◌else◌, slice_get};
ghost use Rattle.mse_outside.specs.Count.{next_count};

mod compare;
mod failing;
mod files;
mod library;
mod list;
mod printed;
mod scripts;
mod tables;
mod ways;

use files::{CaseFile, bytes_of, read_files, text_of};
use list::read_case;
use std::process::ExitCode;
use ways::try_case;

/// The file with a line for each case.
const LIST: &str = "cases.txt";

/// How many cases were tried, and how many of them differ.
#[derive(Clone, Copy, Debug, PartialEq, Eq)]
struct Count {
    tried: u64,
    differing: u64,
}

impl Count {
    /// The count after one more case.
    fn after(self, differs: bool) -> Count
        ensures tried { result.tried ≡ next_count self.tried }
        ensures differing { result.differing
            ≡ (if differs then next_count self.differing else self.differing) }
    {
        Count {
            tried: self.tried.saturating_add(1),
            differing: if differs {
                self.differing.saturating_add(1)
            } else {
                self.differing
            },
        }
    }
}

/// Whether a line of the list names a case.
fn names_case(line: &str) -> bool
    ensures { IsTrue result ↔ ((line.now ≢ []) × (slice_get line.now 0 ≢ Some 35)) }
{
    !line.is_empty() && !line.starts_with('#')
}

/// Tries the case of a line, and prints where it differs.
fn try_line(
    rt: &HostRuntime,
    files: &[CaseFile],
    line: &str,
    count: &mut Count,
) -> anyhow::Result<()> {
    let case = read_case(rt.alloc(), line)?;
    let found = try_case(rt.alloc(), files, &case)?;
    *count = count.after(found.is_some());
    if let Some(difference) = found {
        println!(rt; "{line}: {difference}")?;
    }
    Ok(())
}

fn main(rt: HostRuntime) -> anyhow::Result<ExitCode> {
    let files = read_files(&rt)?;
    let list = text_of(bytes_of(&files, LIST)?)?;
    let mut count = Count {
        tried: 0,
        differing: 0,
    };
    for line in list.lines() {
        if names_case(line) {
            try_line(&rt, &files, line, &mut count)?;
        }
    }
    let Count { tried, differing } = count;
    if differing == 0 {
        println!(rt; "{tried} cases as wanted")?;
        Ok(ExitCode::SUCCESS)
    } else {
        println!(rt; "{differing} of {tried} cases differ")?;
        Ok(ExitCode::FAILURE)
    }
}
