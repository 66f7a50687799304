// Lines of lists: the skipped records, the slugs that are opted out, the rows, the changes of enrolments, and the preferences.
ghost use Rattle.std.specs.Prelude.{◌≡◌, ◌++◌, OnOk, string_bytes};
ghost use Rattle.client_words.specs.Answers.{lines_for, skipped_line, out_line, status_words, row_line, change_line, preference_line};
ghost use Rattle.client_words.specs.Answers as spec;

use change_outbox::{Change, ChangeKind};
use enrol_states::{
    DisqualifiedReason, EnrolledReason, ErrorCause, NotEnrolledReason, Row, Status,
};
use itoa::Buffer;
use json_tree::write;
use plain_text::Slug;
use pref_bindings::Preference;
use recipe_reader::SkipReason;
use std::alloc::{AllocError, Global};

/// What stands as a line of an answer.
pub(crate) trait Listed {
    ghost use Rattle.std.specs.Prelude.{◌≡◌, ◌++◌, ℕ, List, OnOk, string_bytes};

    /// The line.
    ghost line: { Self → List ℕ };

    /// Puts the line behind a text. The one error is want of memory.
    fn push_line(&self, alloc: Global, text: &mut String) -> Result<(), AllocError>
        ensures { OnOk result (string_bytes text.new ≡ string_bytes text.old ++ line self.now) };
}

/// A line for each item.
pub(crate) fn push_lines<T: Listed>(
    alloc: Global,
    text: &mut String,
    items: &[T],
) -> Result<(), AllocError>
    ensures { OnOk result (string_bytes text.new ≡ string_bytes text.old ++ lines_for T.line items.now) }
{
    for item in items {
        item.push_line(alloc, text)?;
    }
    Ok(())
}

/// A record that was skipped.
impl Listed for (u32, SkipReason) {
    ghost line = { skipped_line };

    #[tactic(auto, unfolding(crate::specs::Answers::skipped_line))]
    fn push_line(&self, _alloc: Global, text: &mut String) -> Result<(), AllocError> {
        let (index, reason) = *self;
        push_words(text, "skipped ", Buffer::new().format(index))?;
        push_words(text, " ", skip_name(reason))?;
        text.push_str("\n")
    }
}

/// A slug that is opted out.
impl Listed for Slug {
    ghost line = { out_line };

    fn push_line(&self, _alloc: Global, text: &mut String) -> Result<(), AllocError> {
        push_words(text, "out ", self.text())?;
        text.push_str("\n")
    }
}

impl Listed for Row {
    ghost line = { row_line };

    fn push_line(&self, _alloc: Global, text: &mut String) -> Result<(), AllocError> {
        push_words(text, self.slug.text(), " ")?;
        push_status(text, &self.status)?;
        text.push_str("\n")
    }
}

impl Listed for Change {
    ghost line = { change_line };

    #[tactic(auto, unfolding(crate::specs::Answers::change_line))]
    fn push_line(&self, _alloc: Global, text: &mut String) -> Result<(), AllocError> {
        push_words(text, "change ", Buffer::new().format(self.number))?;
        push_words(text, " ", kind_word(self.kind))?;
        push_words(text, " ", self.slug.text())?;
        push_words(text, " ", self.branch.text())?;
        text.push_str("\n")
    }
}

impl Listed for Preference {
    ghost line = { preference_line };

    #[tactic(auto, unfolding(crate::specs::Answers::preference_line))]
    fn push_line(&self, alloc: Global, text: &mut String) -> Result<(), AllocError> {
        push_words(text, "pref ", self.name.as_str())?;
        push_words(text, " ", write(alloc, &self.value)?.as_str())?;
        text.push_str("\n")
    }
}

fn kind_word(kind: ChangeKind) -> &'static str
    ensures { result.now ≡ spec.kind_word kind }
{
    match kind {
        ChangeKind::Join => "join",
        ChangeKind::Leave => "leave",
    }
}

fn push_status(text: &mut String, status: &Status) -> Result<(), AllocError>
    ensures { OnOk result (string_bytes text.new ≡ string_bytes text.old ++ status_words status.now) }
{
    match status {
        Status::Enrolled { reason, branch } => {
            push_words(text, "Enrolled ", enrolled_name(*reason))?;
            push_words(text, " ", branch.text())
        }
        Status::NotEnrolled { reason } => {
            push_words(text, "NotEnrolled ", not_enrolled_name(*reason))
        }
        Status::Disqualified { reason, branch } => {
            push_words(text, "Disqualified ", disqualified_name(*reason))?;
            push_words(text, " ", branch.text())
        }
        Status::WasEnrolled { branch, ended } => {
            push_words(text, "WasEnrolled ", branch.text())?;
            push_words(text, " ", Buffer::new().format(*ended))
        }
        Status::Error { cause } => push_words(text, "Error ", cause_name(*cause)),
    }
}

/// Two words, one behind the other.
pub(crate) fn push_words(text: &mut String, first: &str, second: &str) -> Result<(), AllocError>
    ensures { OnOk result (string_bytes text.new ≡ string_bytes text.old ++ (first.now ++ second.now)) }
{
    text.push_str(first)?;
    text.push_str(second)
}

fn skip_name(reason: SkipReason) -> &'static str
    ensures { result.now ≡ spec.skip_name reason }
{
    match reason {
        SkipReason::NotAnObject => "NotAnObject",
        SkipReason::BadSlug => "BadSlug",
        SkipReason::BadSchema => "BadSchema",
        SkipReason::BadField => "BadField",
        SkipReason::BadBucket => "BadBucket",
        SkipReason::BadBranches => "BadBranches",
        SkipReason::Duplicate => "Duplicate",
    }
}

fn enrolled_name(reason: EnrolledReason) -> &'static str
    ensures { result.now ≡ spec.enrolled_name reason }
{
    match reason {
        EnrolledReason::Qualified => "Qualified",
        EnrolledReason::OptIn => "OptIn",
    }
}

fn not_enrolled_name(reason: NotEnrolledReason) -> &'static str
    ensures { result.now ≡ spec.not_enrolled_name reason }
{
    match reason {
        NotEnrolledReason::DifferentAppName => "DifferentAppName",
        NotEnrolledReason::DifferentChannel => "DifferentChannel",
        NotEnrolledReason::EnrollmentsPaused => "EnrollmentsPaused",
        NotEnrolledReason::FeatureConflict => "FeatureConflict",
        NotEnrolledReason::NotSelected => "NotSelected",
        NotEnrolledReason::NotTargeted => "NotTargeted",
        NotEnrolledReason::OptOut => "OptOut",
    }
}

fn disqualified_name(reason: DisqualifiedReason) -> &'static str
    ensures { result.now ≡ spec.disqualified_name reason }
{
    match reason {
        DisqualifiedReason::Error => "Error",
        DisqualifiedReason::FeatureConflict => "FeatureConflict",
        DisqualifiedReason::NotSelected => "NotSelected",
        DisqualifiedReason::NotTargeted => "NotTargeted",
        DisqualifiedReason::OptOut => "OptOut",
    }
}

fn cause_name(cause: ErrorCause) -> &'static str
    ensures { result.now ≡ spec.cause_name cause }
{
    match cause {
        ErrorCause::Unparsed => "Unparsed",
        ErrorCause::Faulted => "Faulted",
        ErrorCause::NotTruth => "NotTruth",
        ErrorCause::NoUnit => "NoUnit",
    }
}
