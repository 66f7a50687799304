// What the program tells of itself.
ghost use Rattle.std.specs.Prelude.{◌≡◌, ◌≢◌, [], ◌∷◌, Some, map, string_bytes, codes, IsNone};

/// What the program tells of itself.
#[derive(Clone, Copy, Debug, PartialEq, Eq)]
pub(crate) enum Notice {
    Help,
    Version,
}

const HELP: &str = "nimbus: an experiments client with a durable store

usage:
  nimbus init ID         makes a store for the client with this id, in the current folder
  nimbus run             does the commands that stand on standard input, one on a line
  nimbus drill START N   makes a store as init does, and does the commands of a drill over N recipes,
                         from 1 to 2000; START is from 0 to 2^64 - 1
  nimbus --help          prints this text
  nimbus --version       prints the version

commands of `nimbus run`:
  manifest FILE CHANNEL  takes the manifest of this file of the folder, for this channel
  context FILE           takes the context of this file: the application, its version and place
  fetch FILE             takes the recipes of this file, for a later apply
  apply                  makes the fetched recipes live, and each enrolment follows its recipe
  participate yes|no     whether the client takes part in experiments and rollouts
  participate experiments yes|no
                         whether it takes part in experiments
  participate rollouts yes|no
                         whether it takes part in rollouts
  opt-out SLUG           opts the slug out, and ends its enrolment
  opt-in SLUG BRANCH     enrols the client in this branch of the slug's recipe
  reset ID               gives the client another id, with no rows, no opt-outs and no events
  event NAME COUNT       counts that the user did this so many times, from 1 to 1000000, for targeting
  changes                prints each join and leave of a branch that isn't confirmed, with its number
  confirm NUMBER         confirms the changes up to this one
  bind FILE              takes the bindings of this file: which preference each variable of a feature sets
  set-pref NAME VALUE    sets the user's value of a preference, and ends the enrolment that holds it
  clear-pref NAME        takes the user's value of a preference away, and ends the enrolment that holds it
  prefs                  prints each preference that has a value
  feature NAME           prints the value that the feature has
  show                   prints the state
  write-manifest         prints the manifest as one file

exit status:
   0 Done                all was done and printed
   2 Usage               the words have none of these forms
   3 ScriptTooLong       standard input gave more than 1048576 bytes
   4 NoStore             there is no store in the current folder
   5 AlreadyStore        there is a store already
   6 BadStore            the files of the store stand for no state
   8 SourceFault         standard input failed
   9 ShelfFault          a file that a command names failed
  10 DiskFault           a file of the store failed
  11 SayFault            standard output failed
  12 OutOfMemory         out of memory
";

const VERSION: &str = "nimbus 0.1.0\n";

impl Notice {
    /// What the words ask for, where they are `--help` or `--version` alone.
    pub(crate) fn of(words: &[String]) -> Option<Notice>
        ensures help { result ≡ Some Notice.Help → map string_bytes words.now ≡ codes "--help" ∷ [] }
        ensures version { result ≡ Some Notice.Version → map string_bytes words.now ≡ codes "--version" ∷ [] }
        ensures none { IsNone result
            → (map string_bytes words.now ≢ codes "--help" ∷ []) × (map string_bytes words.now ≢ codes "--version" ∷ []) }
    {
        match words {
            [word] if word.as_str() == "--help" => Some(Notice::Help),
            [word] if word.as_str() == "--version" => Some(Notice::Version),
            _ => None,
        }
    }

    /// The whole lines that are printed.
    pub(crate) fn text(self) -> &'static str {
        match self {
            Notice::Help => HELP,
            Notice::Version => VERSION,
        }
    }
}
