//! What holds of the texts of states, as a law over the definitions alone. A law is a function without a body, whose contract is the law.
ghost use Rattle.std.specs.Prelude.{◌≡◌, ◌≤◌, length};
ghost use Rattle.kc_stream.specs.Hearing.{heard_so_far};
ghost use Rattle.kc_stream.specs.declared.bad_lines.BadLines.{BadLines};
ghost use Rattle.kc_words.specs.declared.layout.TheConstants.{VERTICES};
ghost use Rattle.kc_state.specs.OneState.{AreSame, IsKeptState};
ghost use Rattle.kc_state.specs.Starts.{HasBegunWith, start_text};
ghost use Rattle.kc_state.specs.Texts.{KeptParts, state_text};

/// A text is that of one state: two states that have it are the same in all that it tells.
pub fn a_text_is_of_one_state()
    ensures { (s s' : KeptParts) → IsKeptState s → IsKeptState s' → state_text s ≡ state_text s' → AreSame s s' }
{}

/// A start text tells its state: a stream that begins with it has the ids of the state, in the same order, and its edges between them. No line
/// of it is refused.
pub fn a_start_text_tells_its_state()
    ensures { (bad : BadLines) (s : KeptParts) → IsKeptState s → length s.ids ≤ VERTICES → HasBegunWith (heard_so_far bad (start_text s)) s }
{}
