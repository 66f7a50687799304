// The client on whose part recipes are judged.
use app_context::Context;
use enrol_states::State;

/// A client at a moment: what verdicts on recipes are made of.
#[derive(Drop)]
pub(crate) struct Client<'a> {
    /// The state with the recipes and the version of the apply, and with its old rows.
    pub(crate) state: &'a State,
    pub(crate) context: &'a Context,
    /// In whole seconds since 1970.
    pub(crate) moment: u64,
}
