// The laws of steps. Each function does nothing: its contract is the law.
ghost use Rattle.client_steps.specs.EventSteps.{EventsFollow};
ghost use Rattle.client_steps.specs.OptOuts.{OptOutsHold};
ghost use Rattle.client_steps.specs.OutboxSteps.{OutboxFollows};
ghost use Rattle.client_steps.specs.PreferenceSteps.{PreferencesFollow};
ghost use Rattle.client_steps.specs.ServedValues.{ValuesAreServed, ValuesHaveTypes};
ghost use Rattle.client_steps.specs.Soundness.{StepsStaySound};
ghost use Rattle.client_steps.specs.WrittenManifests.{ManifestsAreMadeAgain};

/// A slug stays opted out, and so nothing of it is enrolled, until a command that is done brings it back: an opt-in of
/// the slug, or a reset.
pub fn opt_outs_hold()
    ensures { OptOutsHold }
{}

/// A step from a sound state and a lawful session gives a sound state and a lawful session, for every command, files and
/// moment, and so do any number of steps: features stay with one recipe of a kind, also where an apply changes recipes,
/// their kinds, their features or what may be shared. Nothing is asked of what files hold.
pub fn steps_stay_sound()
    ensures { StepsStaySound }
{}

/// A step counts an event that it answers `Okay`, forgets the counts at a reset that it answers so, and else leaves them.
pub fn events_follow()
    ensures { EventsFollow }
{}

/// The outbox that a step leaves has the changes of enrolments that the step makes, under the next numbers, and drops those that
/// it confirms. A confirmation is done only where a change had its number.
pub fn outbox_follows()
    ensures { OutboxFollows }
{}

/// The preferences that a step leaves: each enrolment that ended has left them, then each that began has joined them, and then
/// the user's value is set or taken away, where the command does that and is answered `Okay`. Nothing else changes the user's map.
pub fn preferences_follow()
    ensures { PreferencesFollow }
{}

/// A step is answered a value only where it asks for a feature, and that is the tree of the value which the session's
/// manifest serves of it.
pub fn values_are_served()
    ensures { ValuesAreServed }
{}

/// That value has the type of the feature, from every sound state and lawful session.
pub fn values_have_types()
    ensures { ValuesHaveTypes }
{}

/// A file with the text of what `write-manifest` is answered, of at most 4,194,304 bytes, makes the session's manifest again,
/// for the manifest's channel, in every lawful session.
pub fn manifests_are_made_again()
    ensures { ManifestsAreMadeAgain }
{}
