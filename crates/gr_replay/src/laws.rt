//! Laws on the streams in bytes and on their reports. Each is the contract of a function that does nothing.

ghost use Rattle.gr_intake.specs.Laws.{JoinedAreStreams};
ghost use Rattle.gr_replay.specs.Laws.{BytesAreInputs, BytesAreOneLaunch, BytesHaveOneReport, InputsAreJoined, InputsAreOneLaunch, InputsHaveOneReport, InputsInAnyOrder, JoinedReportIsEqual, JoinedReportIsSame, ReportInAnyOrder, SitesAreNotJudged, SitesAreNotRead, UpgradedAreOneLaunch, UpgradedHaveOneReport, UpgradedInputsAreOneLaunch, UpgradedInputsHaveOneReport};

/// Streams that are read are complete lists that their groups may have. Their groups differ, and their launch is one.
pub fn joined_are_streams()
    ensures { JoinedAreStreams }
{}

/// Bytes are the streams of one launch at most, and so are inputs. So they have one report at most.
pub fn one_launch_is_read()
    ensures bytes { BytesAreOneLaunch }
    ensures inputs { InputsAreOneLaunch }
    ensures report { BytesHaveOneReport }
    ensures inputs_report { InputsHaveOneReport }
{}

/// Inputs are the streams of a launch exactly where each input is one stream and all of them, one after another, are the
/// streams of this launch. All bytes of a launch are such inputs. So `run_streams` on the inputs and `replay` on the joined
/// inputs give equal reports.
pub fn inputs_are_joined()
    ensures launch { InputsAreJoined }
    ensures bytes { BytesAreInputs }
    ensures report { JoinedReportIsSame }
    ensures equal { JoinedReportIsEqual }
{}

/// Inputs are the streams of a launch in any order, and have its report.
pub fn inputs_come_in_any_order()
    ensures launch { InputsInAnyOrder }
    ensures report { ReportInAnyOrder }
{}

/// Streams that differ only in the sites of their records are read as the same streams, and have the same report.
#[tactic(auto, using(crate::proofs::Upgrades::sites_are_not_read, crate::proofs::Upgrades::sites_are_not_judged))]
pub fn sites_are_not_judged()
    ensures streams { SitesAreNotRead }
    ensures report { SitesAreNotJudged }
{}

/// Bytes and their upgrade are the streams of the same launch, and have the same report. The same holds of
/// inputs where some are upgraded.
pub fn upgraded_are_one_launch()
    ensures bytes { UpgradedAreOneLaunch }
    ensures inputs { UpgradedInputsAreOneLaunch }
    ensures report { UpgradedHaveOneReport }
    ensures inputs_report { UpgradedInputsHaveOneReport }
{}
