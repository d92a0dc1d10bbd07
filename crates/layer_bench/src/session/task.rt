//! What the words ask for.

/// What is measured.
#[derive(Clone, Copy)]
pub enum Task {
    /// So many connections are served, whose bytes come in pieces of this size.
    Session { connections: u32, piece: usize },
    /// The heads of so many connections are read by `httparse` alone.
    Heads { connections: u32 },
}

/// The task that the words name, if any.
pub fn task_of(words: &[String]) -> Option<Task> {
    match words {
        [name, connections, piece] if name.as_str() == "session" => Some(Task::Session {
            connections: connections.as_str().parse().ok()?,
            piece: piece.as_str().parse().ok()?,
        }),
        [name, connections] if name.as_str() == "heads" => Some(Task::Heads {
            connections: connections.as_str().parse().ok()?,
        }),
        _ => None,
    }
}
