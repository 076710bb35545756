//! How orders are given.

use crate::form::ReportForm;

/// How orders and reports name actions, and how many actions an agent is told at most that it has not reported.
#[derive(Clone, Copy)]
pub struct Pace {
    pub form: ReportForm,
    pub ahead: u8,
}
