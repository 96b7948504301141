// What holds of the history of every run. A law, no code.
ghost use Rattle.nq_run.specs.RunHistories.{RunsMakeHistories};

/// In the history of each run over the forms of a text, each event had a new name when it was added, and met the principle of
/// its kind. The text of a term over its functions is read back as that term, also over those that the text defines.
pub fn runs_make_histories()
    ensures { RunsMakeHistories }
{}
