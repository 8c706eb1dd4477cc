//! The requests of a run, and what became of each at its submission.
ghost use Rattle.std.specs.Prelude.{◌≡◌, IfOk, IsOk, Ok, false, ℕ};
ghost use Rattle.std.specs.List.{list_all};
ghost use Rattle.bio.specs.Requests.{check_sized_answer, has_data};
ghost use Rattle.dmlw_script.specs.Plans.{submission_answer};
ghost use Rattle.script_runner.specs.Submissions.{bio_of, is_asked};

use crate::write_data::WriteData;
use bio::{Bio, Id};
use dmlw_script::Submission;
use std::alloc::AllocError;

/// What became of a script's request at its submission.
#[derive(Debug, Drop)]
pub enum Request {
    /// The recorder tracks the request by `id`; if `id` is None, it passed the request.
    Asked { bio: Bio, id: Option<Id> },
    /// Memory for the request ran out, so the data device won't be called for it.
    NotAsked,
}

/// Returns the request that a line submits. Writes of the same byte share their data.
#[tactic(auto, using(crate::proofs::LawfulRuns::bio_suits))]
pub fn bio_of(data: &mut WriteData, submission: Submission) -> Result<Bio, AllocError>
    requires { (bytes sectors : ℕ) × (submission_answer bytes sectors submission ≡ Ok tt) }
    ensures made { IfOk result (λ bio. bio ≡ bio_of submission) }
    ensures no_data { has_data (bio_of submission) ≡ false → IsOk result }
    // If the line passes its check, the request passes the recorder's check.
    ensures suits { (bytes sectors : ℕ) → submission_answer bytes sectors submission ≡ Ok tt
        → check_sized_answer bytes (bio_of submission) sectors ≡ Ok tt }
{
    match submission {
        Submission::Write {
            first,
            count,
            byte,
            options,
        } => Ok(Bio::Write {
            first,
            bytes: data.sectors_of(count, byte)?,
            flush: options.flush,
            fua: options.fua,
            meta: options.meta,
        }),
        Submission::Flush => Ok(Bio::Flush),
        Submission::Discard { first, count } => Ok(Bio::Discard { first, count }),
    }
}

// Returns whether memory sufficed for each request.
pub(crate) fn are_asked(requests: &[Request]) -> bool
    ensures { result ≡ list_all is_asked requests.now }
{
    requests.iter().all(|request| is_asked(request))
}

// Returns whether memory sufficed for a request.
fn is_asked(request: &Request) -> bool
    ensures { result ≡ is_asked request.now }
{
    matches!(request, Request::Asked { .. })
}
