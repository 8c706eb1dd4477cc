//! Calls the recorder for a line: submits a request, or records its end.
ghost use Rattle.std.specs.Prelude.{◌≡◌, Ok};
ghost use Rattle.dmlw_script.specs.Plans.{submission_answer};
ghost use Rattle.recorder.specs.Growth.{RecorderFrame};
ghost use Rattle.recorder.specs.Calls.{core_of, recorder_view};
ghost use Rattle.script_runner.specs.Lines.{BecomesRequest, RecordsEnd};
ghost use Rattle.script_runner.specs.Submissions.{bio_of};

use crate::request::{Request, bio_of};
use crate::write_data::WriteData;
use bio::{Event, Id};
use blockdev::BlockDev;
use dmlw_script::Submission;
use recorder::{Recorder, Reply};

// Submits the request of a line to the recorder. The line was checked, so the request is aligned to
// the log's sectors.
pub(crate) fn ask<L: BlockDev + Drop>(
    recorder: &mut Recorder<L>,
    data: &mut WriteData,
    submission: Submission,
) -> Request
    requires { submission_answer (core_of recorder.old).sector_bytes 1048576 submission ≡ Ok tt }
    ensures asks { BecomesRequest (bio_of submission) result recorder.old recorder.new }
    ensures goes { RecorderFrame (recorder_view recorder.old) (recorder_view recorder.new) }
    ensures log_time { recorder.new.store.time ≡ recorder.old.store.time }
{
    let Ok(bio) = bio_of(data, submission) else {
        return Request::NotAsked;
    };
    let Ok(asked) = bio.clone() else {
        return Request::NotAsked;
    };
    match recorder.event(Event::Submit(asked)) {
        Reply::Tracked(id) => Request::Asked { bio, id: Some(id) },
        Reply::Passed => Request::Asked { bio, id: None },
        _ => Request::NotAsked,
    }
}

/// Records the end of a request, if the recorder tracks the request by an id.
pub fn complete_request<L: BlockDev + Drop>(recorder: &mut Recorder<L>, id: Option<Id>, ok: bool)
    ensures hears { RecordsEnd id ok recorder.old recorder.new }
    ensures goes { RecorderFrame (recorder_view recorder.old) (recorder_view recorder.new) }
    ensures log_time { recorder.new.store.time ≡ recorder.old.store.time }
{
    if let Some(id) = id {
        let _reply = recorder.event(Event::Complete { id, ok });
    }
}
