use crate::notice::Notice;
use std::test::Fail;

/// Forms of words, and commands of a script.
const FORMS: &str = "nimbus init ID\n\
    nimbus run\n\
    nimbus drill START N\n\
    nimbus --help\n\
    nimbus --version\n\
    manifest FILE CHANNEL\n\
    context FILE\n\
    fetch FILE\n\
    apply\n\
    participate yes|no\n\
    participate experiments yes|no\n\
    participate rollouts yes|no\n\
    opt-out SLUG\n\
    opt-in SLUG BRANCH\n\
    reset ID\n\
    feature NAME\n\
    show\n\
    write-manifest\n\
    event NAME COUNT\n\
    changes\n\
    confirm NUMBER\n\
    bind FILE\n\
    set-pref NAME VALUE\n\
    clear-pref NAME\n\
    prefs";

// A line of the text begins with this.
fn has_line(text: &str, front: &str) -> bool {
    text.lines()
        .any(|line| line.trim_start().starts_with(front))
}

#[test]
fn help_tells_each_form_and_command(rt: HostRuntime) -> Result<(), Fail> {
    let words = [String::from_str(rt.alloc(), "--help")?];
    let help = Notice::of(&words).ok_or("no notice")?.text();
    for form in FORMS.lines() {
        assert!(rt; has_line(help, form), "at {form}");
    }
    assert!(rt; !has_line(help, "fly"));
    Ok(())
}
