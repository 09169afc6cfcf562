//! Laws of the definitions: what the files of the transmitters hold once a schedule is done.

ghost use Rattle.std.specs.Prelude.{◌≡◌, List};
ghost use Rattle.dtx_net.specs.Steps.{Step};
ghost use Rattle.dtx_plan.specs.declared.transmitter.Transmitter.{Transmitter};
ghost use Rattle.dtx_schedule.specs.PlayedSoFar.{IsComplete, Progress, begun_files};
ghost use Rattle.dtx_schedule.specs.TransmitterFiles.{played_outputs};

/// Where all files are begun and all steps are done, each file is whole.
#[tactic(auto, using(crate::proofs::ProgressOf::whole_files))]
pub fn what_is_complete_is_whole()
    ensures { (ts : List Transmitter) (steps : List Step) (progress : Progress ts steps)
        → IsComplete ts steps progress → begun_files ts steps progress ≡ played_outputs ts steps }
{}
