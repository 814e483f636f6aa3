//! What a class keeps of a kind. Each law is the contract of a function that does nothing.

ghost use Rattle.gr_model.specs.ClassLaws.{AccessesHaveClasses, ClassesTellModifies, ClassesTellScopes, ExemptionIsOfKinds};

/// An event has a class exactly where it accesses a word. The class says whether the event modifies its word, and its scope. Two classes
/// are exempt exactly where neither of their kinds modifies, or both are atomic with inclusive scope.
pub fn classes_tell_conflicts()
    ensures accesses { AccessesHaveClasses }
    ensures modifies { ClassesTellModifies }
    ensures scopes { ClassesTellScopes }
    ensures exempt { ExemptionIsOfKinds }
{}
