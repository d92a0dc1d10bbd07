//! What the words ask for.
/// What keeps the threads apart.
#[derive(Clone, Copy)]
pub enum Guard {
    Gate,
    Mutex,
}

/// So many turns for each of so many threads.
#[derive(Clone, Copy)]
pub struct Task {
    pub guard: Guard,
    pub threads: u32,
    pub turns: u64,
}

fn guard_of(name: &str) -> Option<Guard> {
    match name {
        "gate" => Some(Guard::Gate),
        "mutex" => Some(Guard::Mutex),
        _ => None,
    }
}

/// The task that the words name, if any.
pub fn task_of(words: &[String]) -> Option<Task> {
    match words {
        [guard, threads, turns] => Some(Task {
            guard: guard_of(guard.as_str())?,
            threads: threads.as_str().parse().ok()?,
            turns: turns.as_str().parse().ok()?,
        }),
        _ => None,
    }
}
