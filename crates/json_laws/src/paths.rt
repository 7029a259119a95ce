//! Where the path of a refused document leads, and what is wrong with the value there.

ghost use Rattle.json_laws.specs.Paths.{PathsAreShown, PathsLead, PathsOfTextsLead, PointersLead, TokensArePlain, TokensOfTextsArePlain, ValuesAreWrong, ValuesOfTextsAreWrong};

/// The path of a refused document leads to a value in it; only that of `Missing` leads to nothing, and all its steps but the
/// last lead to an object that has no member of the last step's name, or `null` there. A text that is no JSON is refused
/// without a step.
pub fn paths_lead()
    ensures document { PathsLead }
    ensures text { PathsOfTextsLead }
{}

/// The value to which the path of a refused document leads is what the fault says that it is. Where other values decide that
/// too, they are the document's own: its next id, its sources, applications and calls, the members beside the value, and the
/// elements before it. That a value of this kind is wanted at this place is not said.
pub fn values_are_wrong()
    ensures document { ValuesAreWrong }
    ensures text { ValuesOfTextsAreWrong }
{}

/// A path is shown as a JSON pointer, which leads to the same value as the path. No token needs an escape in that of a refused
/// document.
pub fn pointers_lead()
    ensures shown { PathsAreShown }
    ensures plain { TokensArePlain }
    ensures plain_of_text { TokensOfTextsArePlain }
    ensures lead { PointersLead }
{}
