// The laws of runs, and of stores over many runs. Each function does nothing: its contract is the law.
ghost use Rattle.std.specs.Prelude.{◌≤◌, ℕ, List, length};
ghost use Rattle.client_state.specs.declared.client_state.ClientState.{ClientState};
ghost use Rattle.enrol_states.specs.State.{last_moment};
ghost use Rattle.client_state.specs.Sound.{IsSound};
ghost use Rattle.client_steps.specs.Settings.{Setting};
ghost use Rattle.client_store.specs.Store.{KeptFor};
ghost use Rattle.session_run.specs.Chains.{Link, IsChain, EndsKept, folded, MomentsAreLinks, IsHeldOutOver};
ghost use Rattle.session_run.specs.EventChains.{EventsAreKept};
ghost use Rattle.session_run.specs.OptOuts.{IsHeldOut, IsOut};
ghost use Rattle.session_run.specs.OutboxChains.{OutboxIsKept};
ghost use Rattle.session_run.specs.PreferenceChains.{AreTheUsers, HeldAreSetByJoins, HoldersTakePart, UserMapIsKept};
ghost use Rattle.session_run.specs.Runs.{ServesValues};
ghost use Rattle.session_run.specs.Starts.{Start};
ghost use Rattle.session_run.specs.Steps.{after};
ghost use Rattle.session_run.specs.WrittenManifests.{WritesManifests};

/// What may be met at a moment of a run is a link of a chain: so is what a crash leaves then, and what stands when the run
/// has ended, with whatever status. `Ran` says in `links` that each is met from an image of the run's start, and `HasCauses`
/// in `next` that what a run leaves is what the next one asks of its start.
pub fn runs_are_links()
    ensures { MomentsAreLinks }
{}

/// After any runs and crashes, each run begun on what the one before left, the store is kept for the state of the lines
/// that counted, run by run, which is sound. A slug that is out when one of the runs begins, or that a line which counted
/// opts out of, stays out from there on, over all later runs, until a line that counted brings it back.
pub fn kept_chain()
    ensures ends { (l r : List ℕ) (s : ClientState) (links : List Link) → KeptFor l r s → IsChain l r links → EndsKept l r links (folded s links) }
    ensures sound { (l r : List ℕ) (s : ClientState) (links : List Link) → KeptFor l r s → IsChain l r links → IsSound (folded s links) }
    ensures opted_out { (l r : List ℕ) (s : ClientState) (links : List Link) (slug : List ℕ) → KeptFor l r s → IsChain l r links
        → IsHeldOutOver s links slug → IsOut (folded s links) slug }
{}

/// After any runs and crashes, from a store without events, what a moment sees of each name in the counts of the store is
/// what it sees of the events of the lines that counted, run by run: those of each `event` that was answered `ok`, behind the
/// last `reset` that was.
pub fn event_chain()
    ensures { EventsAreKept }
{}

/// After any runs and crashes, from a store whose outbox was new, the outbox of the store holds exactly those changes of
/// enrolments of the lines that counted, numbered from 1 run by run, that are above the greatest number of a `confirm` which
/// was answered `ok`. Its next number is one above how many changes there were. So each change is told until it is
/// confirmed, under one number, and none is told of a line that a crash undid.
pub fn outbox_chain()
    ensures { OutboxIsKept }
{}

/// After any runs and crashes, from a store without preferences, the preferences of the store are what the user set and took
/// away, by each `set-pref` and `clear-pref` that was answered `ok`, but for those that recipes hold. Such a one has the value
/// that its holder's join set, and keeps the user's, which a leave brings back. The client takes part in each holder's recipe.
/// So where it takes part in none, the preferences are the user's.
pub fn pref_chain()
    ensures user_map { UserMapIsKept }
    ensures held { HeldAreSetByJoins }
    ensures holders { HoldersTakePart }
    ensures users { AreTheUsers }
{}

/// From a sound state each line of a run leaves a sound state.
pub fn runs_stay_sound()
    ensures { (at : Setting) (s : ClientState) (lines : List (List ℕ)) (k : ℕ) → at.now ≤ last_moment → IsSound s → IsSound (after at s lines k) }
{}

/// From a sound state, a slug that is out when the run begins, or that a line opts out of, stays out until a line that is
/// done brings it back: after the first k lines it is opted out, and the client isn't enrolled in its recipe.
pub fn opt_outs_stay()
    ensures { (at : Setting) (s : ClientState) (lines : List (List ℕ)) (k : ℕ) (slug : List ℕ) → at.now ≤ last_moment → IsSound s → k ≤ length lines
        → IsHeldOut at s lines k slug → IsOut (after at s lines k) slug }
{}

/// From a sound state, each value that a line is answered is the one that the manifest serves which the run had set last,
/// and it has the types of the feature's variables.
pub fn values_are_served()
    ensures { (start : Start) → start.at.now ≤ last_moment → IsSound start.state → ServesValues start }
{}

/// Where a `write-manifest` is answered a manifest, a file with that text, of at most 4,194,304 bytes, makes the manifest
/// again that the run had set last, for its channel.
pub fn manifests_are_made_again()
    ensures { (start : Start) → WritesManifests start }
{}
