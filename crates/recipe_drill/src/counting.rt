// The summary of a state.
ghost use Rattle.std.specs.Prelude.{◌≡◌, ◌++◌, IfOk, OnOk, string_bytes};
ghost use Rattle.enrol_states.specs.Statuses.{is_enrolled, was_enrolled};
ghost use Rattle.recipe_drill.specs.Summary as spec;

use enrol_states::{Row, State, Status};
use itoa::Buffer;
use sequences::Text;
use std::alloc::{AllocError, Global};

/// The drill's two numbers on a line, and then a line for each status with the count of its rows.
/// The one error is want of memory.
#[tactic(auto, unfolding(crate::specs::Summary::summary))]
pub fn summary(alloc: Global, start: u64, count: u32, state: &State) -> Result<Text, AllocError>
    ensures { IfOk result (λ text. text ≡ spec.summary start count state.now) }
{
    let counts = counts_of(state.rows.as_slice());
    let mut text = String::from_str(alloc, "drill ")?;
    text.push_str(Buffer::new().format(start))?;
    text.push_str(" ")?;
    text.push_str(Buffer::new().format(count))?;
    text.push_str("\n")?;
    push_count(&mut text, "Enrolled", counts.enrolled)?;
    push_count(&mut text, "NotEnrolled", counts.not_enrolled)?;
    push_count(&mut text, "Disqualified", counts.disqualified)?;
    push_count(&mut text, "WasEnrolled", counts.was_enrolled)?;
    push_count(&mut text, "Error", counts.error)?;
    Ok(Text::from_string(text))
}

/// The line of a status, with its count.
#[tactic(auto, unfolding(crate::specs::Summary::count_line))]
fn push_count(text: &mut String, name: &str, count: usize) -> Result<(), AllocError>
    ensures { OnOk result (string_bytes text.new ≡ string_bytes text.old ++ spec.count_line name.now count) }
{
    text.push_str(name)?;
    text.push_str(" ")?;
    text.push_str(Buffer::new().format(count))?;
    text.push_str("\n")
}

/// How many rows have each status.
#[derive(Clone, Copy)]
pub(crate) struct Counts {
    pub enrolled: usize,
    pub not_enrolled: usize,
    pub disqualified: usize,
    pub was_enrolled: usize,
    pub error: usize,
}

fn counts_of(rows: &[Row]) -> Counts
    ensures enrolled { result.enrolled ≡ spec.count_of is_enrolled rows.now }
    ensures not_enrolled { result.not_enrolled ≡ spec.count_of spec.is_not_enrolled rows.now }
    ensures disqualified { result.disqualified ≡ spec.count_of spec.is_disqualified rows.now }
    ensures was_enrolled { result.was_enrolled ≡ spec.count_of was_enrolled rows.now }
    ensures error { result.error ≡ spec.count_of spec.is_error rows.now }
{
    let mut counts = Counts {
        enrolled: 0,
        not_enrolled: 0,
        disqualified: 0,
        was_enrolled: 0,
        error: 0,
    };
    for row in rows {
        match row.status {
            Status::Enrolled { .. } => counts.enrolled += 1,
            Status::NotEnrolled { .. } => counts.not_enrolled += 1,
            Status::Disqualified { .. } => counts.disqualified += 1,
            Status::WasEnrolled { .. } => counts.was_enrolled += 1,
            Status::Error { .. } => counts.error += 1,
        }
    }
    counts
}
