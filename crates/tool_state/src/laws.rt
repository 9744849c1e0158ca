//! Laws of the definitions.
ghost use Rattle.tool_state.specs.State.{AtMostOneState, ReadingBegins};
ghost use Rattle.tool_state.specs.Held.{ReadingGivesSame};

/// Does nothing: its contract states the laws of states.
pub fn state_law()
    // Bytes are a state of one list of calls and descriptions at most.
    ensures one { AtMostOneState }
    // A new exporter that counts at the same bounds and reads the state of another one holds the same series with the same
    // values, and describes their names as the other one. So both have one text.
    ensures same { ReadingGivesSame }
    // A run that begins with an exporter that has read a state begins with what the state says.
    ensures begins { ReadingBegins }
{}
