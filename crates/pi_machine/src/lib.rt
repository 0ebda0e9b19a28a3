// The machine on names and objects, as docs/machine.md describes it: its state, the deeds of a step, initialisation,
// throwing and handlers, natives, runs and their ends. All of it is definitions in specs/ that compute; the laws about them
// are functions with no body to run. No code runs it whole yet: the top call runs the instructions of small programs, and
// is proved to do what these definitions say.
//
// Laws of runs: an end is unique (`end_is_unique`, `run_end_is_unique`), output only grows (`output_grows`), a run ends so
// from any of its moments exactly where it ends so from its beginning (`end_stays`, `longer_run_ends_same`), what is ended
// is at rest, and what is at rest has no next step (`ended_is_at_rest`, `rest_has_no_step`, `ended_has_no_step`). Of steps:
// a step changes only what its deeds name (`deeds_change_only`), statuses move from fresh to in progress and on to done or
// erroneous and no other way (`steps_keep_statuses`, `start_records_run`, `statuses_stay`), instructions leave
// initialisation alone (`rows_keep_within`), no write of an instruction or of a class's static values is lost
// (`row_writes_are_inside`, `step_writes_are_inside`), what the deeds tell as read stands so (`looks_are_true`); all writes
// of a step have one target and all its reads of statics one class, it makes one object at most and that before it touches
// a literal, enters one class and calls one native at most (`writes_have_one_target`, `static_reads_have_one_class`,
// `steps_make_first`, `steps_enter_and_call_once`); the bytes of an image grow by what is made and first touched
// (`image_bytes_grow`). Sound states, in which each reference names what is there and numbers fit their width, stay sound,
// where a program's constants are words and no text is made of 2^31 units or more (`steps_keep_sound`, `starts_are_sound`,
// `few_bytes_are_short`). Worked programs stand in proofs/ and are checked with the definitions: each instruction, each
// native with each way in which it throws, initialisation, handlers, and each limit met exactly.
#![tactic(auto)]

ghost use Rattle.pi_machine.specs.Laws.{EndIsUnique, RunEndIsUnique, OutputGrows, EndStays};
ghost use Rattle.pi_machine.specs.StepLaws.{DeedsChangeOnly, StepsKeepStatuses, StartRecordsRun, StatusesStay};
ghost use Rattle.pi_machine.specs.StepLaws.{RowsKeepWithin, RowWritesAreInside, LooksAreTrue, RestHasNoStep, EndedIsAtRest, EndedHasNoStep, LongerRunEndsSame};
ghost use Rattle.pi_machine.specs.StepForms.{WritesHaveOneTarget, StaticReadsHaveOneClass, StepsEnterAndCallOnce, StepsMakeFirst, StepWritesAreInside};
ghost use Rattle.pi_machine.specs.Images.{ImageBytesGrow};
ghost use Rattle.pi_machine.specs.Sound.{StartsAreSound, StepsKeepSound, FewBytesAreShort};
ghost use Rattle.pi_machine.specs.Reading.{ThingsStandBetween, ReferencesGoOnAlike};

/// A run from a state has one end at most.
pub fn end_is_unique()
    ensures { EndIsUnique }
{}

/// A run from the start has one end at most.
pub fn run_end_is_unique()
    ensures { RunEndIsUnique }
{}

/// What was printed by any moment of a run is a front of its output at the end.
pub fn output_grows()
    ensures { OutputGrows }
{}

/// A run ends so from any of its moments exactly where it ends so from its beginning.
pub fn end_stays()
    ensures { EndStays }
{}

/// A step changes only what its deeds name; things are never fewer, and each keeps its shape.
pub fn deeds_change_only()
    ensures { DeedsChangeOnly }
{}

/// Statuses only move from fresh to in progress, and from there to done or to erroneous, where the class of each record on
/// the stack is in progress and has no other record; and that is so after the step too.
pub fn steps_keep_statuses()
    ensures { StepsKeepStatuses }
{}

/// In the states in which runs start there are no records.
pub fn start_records_run()
    ensures { StartRecordsRun }
{}

/// A class that is done or erroneous stays so.
pub fn statuses_stay()
    ensures { StatusesStay }
{}

/// An instruction leaves statuses, records, phases and the start alone, and takes no pending throwable back.
pub fn rows_keep_within()
    ensures { RowsKeepWithin }
{}

/// No write of an instruction is lost: the static, field, element or register is there.
pub fn row_writes_are_inside()
    ensures { RowWritesAreInside }
{}

/// What the deeds of a step tell as read stands so in the state before it.
pub fn looks_are_true()
    ensures { LooksAreTrue }
{}

/// All writes of a step go to one object, or to statics of one class.
pub fn writes_have_one_target()
    ensures { WritesHaveOneTarget }
{}

/// All statics that a step reads are of one class.
pub fn static_reads_have_one_class()
    ensures { StaticReadsHaveOneClass }
{}

/// A step enters one class at most, and calls one native at most.
pub fn steps_enter_and_call_once()
    ensures { StepsEnterAndCallOnce }
{}

/// A step makes one object at most, before it touches any literal.
pub fn steps_make_first()
    ensures { StepsMakeFirst }
{}

/// No write of a step to a static, a field or an element is lost, where there is a static for each field of the program.
pub fn step_writes_are_inside()
    ensures { StepWritesAreInside }
{}

/// After deeds the bytes of an image are what they were, and the bytes of what was made and first touched.
pub fn image_bytes_grow()
    ensures { ImageBytesGrow }
{}

/// A thing stands between those before it and those behind it, and a change of it changes no other.
pub fn things_stand_between()
    ensures { ThingsStandBetween }
{}

/// Where a row goes on alike with null and with things, it went on with a reference operand.
pub fn references_go_on_alike()
    ensures { ReferencesGoOnAlike }
{}

/// A step leads from a sound state to a sound one, for programs whose constants are words, where a text that it makes is short.
pub fn steps_keep_sound()
    ensures { StepsKeepSound }
{}

/// The states in which runs start are sound.
pub fn starts_are_sound()
    ensures { StartsAreSound }
{}

/// An object of fewer than 2^32 bytes is short.
pub fn few_bytes_are_short()
    ensures { FewBytesAreShort }
{}

/// A state that is at rest has no next step.
pub fn rest_has_no_step()
    ensures { RestHasNoStep }
{}

/// A state that is ended is at rest.
pub fn ended_is_at_rest()
    ensures { EndedIsAtRest }
{}

/// A state that is ended has no next step.
pub fn ended_has_no_step()
    ensures { EndedHasNoStep }
{}

/// A run that has ended within so many steps ends the same way within more.
pub fn longer_run_ends_same()
    ensures { LongerRunEndsSame }
{}
