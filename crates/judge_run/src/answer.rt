//! What a run comes to.

use hart_step::Harts;
use page_layers::Layered;
use row_origin::Origins;
use trace_report::Outcome;

/// What a run comes to: an outcome, the harts whose state is written in place of the outcome's
/// line, where one is, and the origins that are written after it, where these are.
#[derive(Drop)]
pub(crate) struct Answer<'a> {
    pub outcome: Outcome,
    pub harts: Option<Harts<Layered<'a>>>,
    /// Who wrote what the row that differs read, where it is asked for.
    pub origins: Option<Origins>,
}
