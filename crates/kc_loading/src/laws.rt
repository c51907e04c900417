//! What holds of a start text, as a law over the definitions alone. A law is a function without a body, whose contract is the law.
ghost use Rattle.std.specs.Prelude.{◌≡◌, ◌≤◌, ◌++◌, Some, length};
ghost use Rattle.kc_words.specs.declared.layout.TheConstants.{VERTICES};
ghost use Rattle.kc_stream.specs.declared.bad_lines.BadLines.{BadLines};
ghost use Rattle.kc_state.specs.OneState.{IsKeptState};
ghost use Rattle.kc_state.specs.Starts.{start_text};
ghost use Rattle.kc_state.specs.Texts.{KeptParts};
ghost use Rattle.kc_watch.specs.States.{account_so_far};
ghost use Rattle.kc_loading.specs.Begun.{account_of_state, end_of_start};

/// Behind the line `batch` that ends the start, the account of a stream that began with the start text of a state is that of the state: its ids,
/// in the same order, and its graph. No batch has ended so far.
pub fn a_stream_begun_with_a_state_has_its_account()
    ensures { (bad : BadLines) (s : KeptParts) → IsKeptState s → length s.ids ≤ VERTICES
        → account_so_far bad (start_text s ++ end_of_start) ≡ Some (account_of_state s) }
{}
