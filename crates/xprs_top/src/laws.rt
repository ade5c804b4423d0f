//! What holds of the text of a run.
ghost use Rattle.std.specs.Prelude.{◌≡◌, ℕ, List, Result, Ok};
ghost use Rattle.xprs_top.specs.declared.status.Status.{Status};
ghost use Rattle.xprs_top.specs.Readings.{Files, IsJob, Job};
ghost use Rattle.xprs_top.specs.Requests.{Request};
ghost use Rattle.xprs_top.specs.Texts.{IsText};

/// The words and the files mean one thing: a request has one job or one fault over some files, and
/// a job that files give has one text, whether it is a printed script, answers or plans.
pub fn one_text()
    ensures job { (files : Files) (request : Request) (found other : Result Job Status) →
        IsJob files request found → IsJob files request other → found ≡ other }
    ensures text { (files : Files) (request : Request) (job : Job) (text other : List ℕ) →
        IsJob files request (Ok job) → IsText job text → IsText job other → text ≡ other }
{}
