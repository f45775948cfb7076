//! The texts by which an accepted request is kept in the history.

/// Caller, request key, command and reply, each as its text.
#[derive(Drop)]
pub struct KeptTexts<'a> {
    pub caller: &'a str,
    pub key: &'a str,
    pub command: &'a str,
    pub reply: &'a str,
}
