//! Laws of notes: the contract of each function is the statement, and its body is empty.
ghost use Rattle.cf_notes.specs.Noting.{NotesNameStages};

/// Whatever notes stand beside the stages of a plan and the entries of a row, there is one entry for each stage of the
/// graph, and each names only stages that are there.
pub fn notes_name_stages()
    ensures { NotesNameStages }
{}
