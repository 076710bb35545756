//! How actions are named in orders and reports.

/// How an order names its action, and a word of a report what was carried out.
#[derive(Clone, Copy)]
pub enum ReportForm {
    /// By its agent and its number, as `A:N`.
    Numbered,
    /// By its agent alone.
    Unnumbered,
}
