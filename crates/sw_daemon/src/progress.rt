//! How far a question is.

use sw_message::Reply;

/// How far a question is.
#[derive(Debug, Drop)]
pub(crate) enum Progress {
    /// Its message is to be handed out.
    Starts,
    /// It is open.
    Waits,
    /// It was answered or given up.
    Told(Option<Reply>),
    /// So it was, and the question has found that it is over.
    Ended(Option<Reply>),
}
