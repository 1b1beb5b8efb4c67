//! The edits of a session.

/// An edit of one line, given by its number from 1, or of one key event, given by its step and key.
#[derive(Clone, Copy)]
pub enum Edit<'a> {
    /// Inserts the text before that line, or after the last line.
    Insert { line: u32, text: &'a [u8] },
    /// Replaces that line by the text.
    Replace { line: u32, text: &'a [u8] },
    /// Deletes that line.
    Delete { line: u32 },
    /// Adds an event: the key goes down or up at that step.
    InsertKey { step: u32, key: u32, down: bool },
    /// Replaces the state, down or up, in the event of that step and key.
    ReplaceKey { step: u32, key: u32, down: bool },
    /// Deletes the event of that step and key.
    DeleteKey { step: u32, key: u32 },
}
