//! What holds of all conversations.
ghost use Rattle.pb_conversations.specs.Laws.{AnswersDecide, BeginningsAreCut, ConversationsAreCut, ConversationsUnfold, PartsAreCut, PartsFollow};

/// What comes part after part, with what may be left of a part that is cut off: a place is a value. It carries the law of all parts,
/// and no type has to implement it.
pub trait ComesInParts {
    ghost use Rattle.std.specs.Prelude.{List};
    ghost use Rattle.pb_history.specs.declared.entry.Received.{Received};

    ghost part: { Self → Self → List Received → Type 0 };

    ghost begun: { Self → List Received → Type 0 };
}

/// What asks step by step, whose value is where it stands.
pub trait AsksSteps {
    ghost use Rattle.pb_conversations.specs.Conversations.{JobOf};

    ghost job: { JobOf Self };
}

/// Parts follow one another. They may be cut off anywhere, if each part may: whole parts are left, and what is left of the next.
pub fn parts_are_cut<P: ComesInParts>()
    ensures follow { PartsFollow P.part }
    ensures cut { PartsAreCut P.part P.begun }
{}

/// A conversation from its first step on: each step is the one that is next where the job stands by then, with one of its answers, and
/// the job goes on from where the answer leads it. What it does by itself says nothing.
pub fn conversations_unfold<J: AsksSteps>()
    ensures { ConversationsUnfold J.job }
{}

/// A conversation may be cut between any two steps: the steps before and the steps after are conversations, of which the first leads
/// to where the second begins.
pub fn conversations_are_cut<J: AsksSteps>()
    ensures { ConversationsAreCut J.job }
{}

/// A whole conversation is a beginning of one, and a beginning may be cut between any two steps. Each is a conversation. A whole one
/// that is cut off before a step is a beginning after which that step is next.
pub fn beginnings_are_cut<J: AsksSteps>()
    ensures { BeginningsAreCut J.job }
{}

/// What a job asks follows from what it was answered, where each answer leads it to one place: two whole conversations that one
/// rule answers are the same, and end at one place.
pub fn answers_decide<J: AsksSteps>()
    ensures { AnswersDecide J.job }
{}
