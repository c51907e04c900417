//! What follows for two dialogues whose input is cut otherwise.
ghost use Rattle.std.specs.Prelude.{◌≡◌, ℕ, List};
ghost use Rattle.kc_wire.specs.Events.{WireEvent, read_in, written_in};
ghost use Rattle.kc_dialogue.specs.Dialogues.{AsksAfter, IsDialogue};
ghost use Rattle.kc_dialogue.specs.Endings.{HasAnswered};
ghost use Rattle.kc_dialogue.specs.declared.end.DialogueEnd.{DialogueEnd};

/// What was written when more input was asked for depends on the bytes that were read before alone, and not on how they were cut into
/// reads. What was written when the input had ended depends on all its bytes alone.
pub fn answers_follow_the_bytes()
    ensures asked { (reply : List ℕ → List ℕ) (a b before-a before-b : List WireEvent) → IsDialogue reply a → IsDialogue reply b
        → AsksAfter a before-a → AsksAfter b before-b → read_in before-a ≡ read_in before-b → written_in before-a ≡ written_in before-b }
    ensures done { (reply reply_at_end : List ℕ → List ℕ) (a b : List WireEvent) → HasAnswered reply reply_at_end a DialogueEnd.Done
        → HasAnswered reply reply_at_end b DialogueEnd.Done → read_in a ≡ read_in b → written_in a ≡ written_in b }
{}
