// Initialising classes ahead of time, as docs/transaction.md describes it: the watched run of one class with the reasons
// for which it is given up, and the fold over the selected classes of a chain with its retries. All of it is definitions in
// specs/; the laws about them are functions with no body to run. No code does this yet.
//
// Proved: every selected class has one answer and no other class has any (`each_answered_once`); the fold has a result
// exactly where it comes to no attempt in which the machine is stuck (`ends_unless_stuck`); an attempt is given up for the
// first of a step's acts that is refused, before its limits are asked (`reason_is_first_refusal`).
#![tactic(auto)]

ghost use Rattle.pi_attempt.specs.Laws.{EachAnsweredOnce, EndsUnlessStuck, ReasonIsFirstRefusal};

/// Each selected class has one answer, and no other class has any.
pub fn each_answered_once()
    ensures { EachAnsweredOnce }
{}

/// The fold over the selections has no result exactly where it comes to an attempt in which the machine is stuck.
pub fn ends_unless_stuck()
    ensures { EndsUnlessStuck }
{}

/// The reason that ends an attempt before a step is the first act of the step that is refused, or what is beyond acts.
pub fn reason_is_first_refusal()
    ensures { ReasonIsFirstRefusal }
{}
