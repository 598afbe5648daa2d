// Runs with their history.
ghost use Rattle.arj_law_parts.specs.moves.Framed.{RunsFrameMessages};

/// In every run each message from one node to another went in a frame that has its line, with the message's kind. A message whose frame
/// didn't fit isn't among those that are seen to have been sent. It does nothing when it runs.
pub fn messages_have_their_lines()
    ensures { RunsFrameMessages }
{}
